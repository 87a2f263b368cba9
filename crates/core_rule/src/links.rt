//! Links, as the words of the table hold them.
ghost use Rattle.std.specs.Prelude.{◌≡◌, ◌-◌, ◌<◌};
ghost use Rattle.word_layout.specs.Size.{places};
ghost use Rattle.core_rule.specs.Learnt.{IsLink};

use word_layout::Layout;

/// The place that a link names.
pub fn link_place(layout: &Layout, link: u64) -> u32
    requires { IsLink (places layout.now) link }
    ensures place { result ≡ link - 1 }
    ensures in_range { result < places layout.now }
{
    let count = layout.places();
    let place = link - 1;
    prove!(place < u64::from(count));
    place as u32
}
