//! Parts of texts and of bytes.

ghost use Rattle.std.specs.Prelude.{◌≡◌, drop, take};

/// That many items from the front.
pub fn front(text: &[u8], most: usize) -> &[u8]
    ensures { result.now ≡ take most text.now }
{
    &text[..most.min(text.len())]
}

/// What follows that many items at the front.
pub fn behind(text: &[u8], most: usize) -> &[u8]
    ensures { result.now ≡ drop most text.now }
{
    &text[most.min(text.len())..]
}
