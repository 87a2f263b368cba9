//! Words of a record that name another one.

ghost use Rattle.std.specs.Prelude.{◌≡◌, ◌<◌, IfNone, IfSome};
ghost use Rattle.record_store.specs.Links.{named_by, link_word as link_word_of};

/// The word that names a record, or none: the record's number plus 1, or 0.
pub fn link_word(named: Option<u32>) -> u64
    ensures { result ≡ link_word_of named }
{
    match named {
        Some(rid) => u64::from(rid) + 1,
        None => 0,
    }
}

/// The record that a word names, or none, unless it lies outside of a store of this size.
pub fn named_record(word: u64, size: u32) -> Option<Option<u32>>
    ensures named { IfSome result (λ named. (named ≡ named_by word) × IfSome named (λ rid. rid < size)) }
    ensures outside { IfNone result (IfSome (named_by word) (λ rid. rid < size) → ⊥) }
{
    if word == 0 {
        return Some(None);
    }
    if word > u64::from(size) {
        return None;
    }
    Some(Some((word - 1) as u32))
}
