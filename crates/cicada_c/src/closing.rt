//! The end of a connection.
ghost use Rattle.std.specs.Prelude.{◌≡◌};
ghost use Rattle.connections.specs.Closing.{Closes};

use crate::handle::CicadaHandle;
use std::alloc::Global;

/// Ends whatever is open, and the connection: the others do not wait for it any more.
#[unsafe(no_mangle)]
pub extern "C" fn cicada_proved_close(handle: &mut CicadaHandle)
    ensures closed { Closes handle.old.value handle.new.value }
    ensures same_pointer { handle.new.at ≡ handle.old.at }
{
    handle.connection().close();
}

/// Gives back all that a connection has; its engine goes with the last one. The handle is none any more.
#[unsafe(no_mangle)]
pub extern "C" fn cicada_proved_free(alloc: Global, handle: CicadaHandle) {
    let _connection = handle.boxed(alloc);
}
