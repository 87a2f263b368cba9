//! Values read into cells.

ghost use Rattle.std.specs.Prelude.{◌≡◌, false};
ghost use Rattle.record_store.specs.Into.{value_if};

use plain_data::Cells;

/// Puts a value into these cells, and answers whether there is one; where there is none, they are as before.
#[inline(always)]
pub fn put_value(value: &Option<Cells>, into: &mut Cells) -> bool
    ensures value { value_if result into.new ≡ value.now }
    ensures absent { result ≡ false → into.new ≡ into.old }
{
    match value {
        Some(cells) => {
            *into = *cells;
            true
        }
        None => false,
    }
}
