// The fields of a line, one after another.
ghost use Rattle.std.specs.Prelude.{◌≡◌, ℕ, [], ◌∷◌, ◌<◌, ◌≢◌, length, slice_index, MatchOption, MatchResult};
ghost use Rattle.std.specs.Option.{option_map};
ghost use Rattle.text.specs.Splitting.{split, left, fields_left, none_left, Took, TookNone, Leaves, SplitLaw};

// Why a line gives no field.
#[derive(Clone, Copy, PartialEq, Eq, Debug)]
pub enum FieldError {
    Missing,
    Empty,
    TooMany,
}

// What is left of a line; nothing once its last field is taken.
// Stays: `fields_left` in the contracts and no model, since a type with a model and a lifetime cannot be `Copy`.
#[derive(Clone, Copy)]
pub struct Fields<'a> {
    rest: Option<&'a [u8]>,
}

// The place of the first space, if there is one.
fn first_space(line: &[u8]) -> Option<usize>
    ensures { MatchOption result ((k : ℕ) → k < length line.now → slice_index line.now k ≢ 32) (λ i. (i < length line.now) × ((k : ℕ) → k < i → slice_index line.now k ≢ 32) × (slice_index line.now i ≡ 32)) }
{
    line.iter().position(|c| *c == b' ')
}

// A line as its first field and what follows the space after it, if one does.
fn cut(line: &[u8]) -> (&[u8], Option<&[u8]>)
    ensures { split line.now ≡ result.0.now ∷ left (option_map (λ x. x.now) result.1) }
{
    match first_space(line) {
        Some(end) => (&line[..end], Some(&line[end + 1..])),
        None => (line, None),
    }
}

impl<'a> Fields<'a> {
    // All the fields of a line.
    pub fn of(line: &'a [u8]) -> Fields<'a>
        ensures { fields_left result ≡ split line.now }
    {
        Fields { rest: Some(line) }
    }

    // Takes the next field, which may not be empty.
    pub fn next(&mut self) -> Result<&'a [u8], FieldError>
        ensures { MatchResult result (λ f. Took (fields_left self.old) f.now (fields_left self.new)) (TookNone (fields_left self.old) (fields_left self.new)) }
    {
        let (field, rest) = cut(self.rest.ok_or(FieldError::Missing)?);
        self.rest = rest;
        if field.is_empty() {
            Err(FieldError::Empty)
        } else {
            Ok(field)
        }
    }

    // Whether every field is taken.
    pub fn is_empty(&self) -> bool
        ensures { result ≡ none_left (fields_left self.now) }
    {
        self.rest.is_none()
    }

    // Whether every field is taken, as an error if one is left.
    // Stays: of the three outcomes only one is handed on, so that `?` would not say it.
    pub fn end(mut self) -> Result<(), FieldError>
        ensures { MatchResult result (λ _. fields_left self.entry ≡ []) (Leaves (fields_left self.entry)) }
    {
        match self.next() {
            Ok(_) => Err(FieldError::TooMany),
            Err(FieldError::Missing) => Ok(()),
            Err(e) => Err(e),
        }
    }
}

// Joined by single spaces, the fields of a line are the line.
pub fn law_of_fields()
    ensures { SplitLaw }
{}
