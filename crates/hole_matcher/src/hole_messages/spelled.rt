//! Texts with one blank between them, of which only the beginning is kept.

ghost use Rattle.std.specs.Prelude.{◌≡◌, [], ◌∷◌, ◌++◌, List, ℕ, take};
ghost use Rattle.hole_matcher.specs.HoleMessages.Beginnings.{shown, most_kept};
ghost use Rattle.hole_matching.specs.Message.{spaced};

use arrayvec::ArrayVec;

/// The first 201 bytes of texts with one blank between them: enough to tell whether they are longer than 200 bytes.
#[derive(Drop)]
pub(crate) struct Spelled {
    pub bytes: ArrayVec<u8, 201>,
    /// Whether there is no text so far.
    pub is_first: bool,
}

// Appends as many bytes as there is room for.
fn keep(kept: &mut ArrayVec<u8, 201>, bytes: &[u8])
    ensures { kept.new.items ≡ take most_kept (kept.old.items ++ bytes.now) }
{
    let fit = bytes.len().min(kept.remaining_capacity());
    let _fits = kept.try_extend_from_slice(&bytes[..fit]);
}

impl Spelled {
    /// No text.
    pub fn new() -> Self
        ensures { (texts : List (List ℕ)) → shown result texts ≡ take most_kept (spaced texts) }
    {
        Spelled {
            bytes: ArrayVec::new(),
            is_first: true,
        }
    }

    /// Appends a text, behind a blank where it isn't the first one.
    pub fn push(&mut self, text: &[u8])
        ensures { (rest : List (List ℕ)) → shown self.new rest ≡ shown self.old (text.now ∷ rest) }
    {
        if !self.is_first {
            keep(&mut self.bytes, b" ");
        }
        keep(&mut self.bytes, text);
        self.is_first = false;
    }

    /// The bytes that are kept, where no more texts come.
    pub fn as_bytes(&self) -> &[u8]
        ensures { result.now ≡ shown self.now [] }
    {
        self.bytes.as_slice()
    }
}
