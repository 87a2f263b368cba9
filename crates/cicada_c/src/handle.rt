//! A connection as C holds it.
ghost use Rattle.std.specs.Prelude.{◌≡◌};
ghost use Rattle.std.specs.Borrow.{sem, follows};
ghost use Rattle.connections.specs.Connection.{ConnectionView};

use connections::Connection;
use std::alloc::Global;
use std::marker::Model;

/// A connection: a pointer that `cicada_proved_open` wrote. C keeps it in a struct of its own, and hands that struct to one call at a time.
#[repr(C)]
pub struct CicadaHandle {
    pub(crate) at: *mut u8,
    ghost value: { ConnectionView },
}

impl Model for CicadaHandle {
    ghost use Rattle.cicada_c.specs.Heap.{heap_token};
    ghost use Rattle.std.specs.Box.Ownership.{box_owns};
    ghost use Rattle.connections.specs.contracts.connection.Connection.{the_row};

    ghost also_owns = { λ l. box_owns heap_token the_row l.at l.value };
}

impl CicadaHandle {
    ghost use Rattle.connections.specs.contracts.connection.Connection.{the_row as Connection-row};
    ghost use Rattle.cicada_c.specs.contracts.handle.CicadaHandle.{the_row as Handle-row};
    ghost use Rattle.cicada_c.specs.Lending.{with_value};

    /// What stands behind the pointer.
    pub(crate) fn connection(&mut self) -> &mut Connection
        ensures* follows { sem 𝓛 (follows Handle-row Connection-row self.entry.ghost_name result.ghost_name (with_value self.old)) }
        ensures value { result.now ≡ self.old.value }
    {
        unsafe { &mut *(self.at as *mut Connection) }
    }

    /// What stands behind the pointer, with its memory.
    pub(crate) fn boxed(self, alloc: Global) -> Box<Connection>
        ensures { result.value ≡ self.value }
    {
        let CicadaHandle { at } = self;
        unsafe { Box::from_raw(alloc, at as *mut Connection) }
    }
}

// A connection may go to another thread.
unsafe impl Send for CicadaHandle {}

fn pass_on<T: Send>(value: T) -> T {
    value
}

/// Shows that a connection may go to another thread.
pub fn send_handle(handle: CicadaHandle) -> CicadaHandle {
    pass_on(handle)
}
