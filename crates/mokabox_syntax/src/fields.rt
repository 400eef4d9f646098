//! The fields of a line: its parts between single spaces.
ghost use Rattle.std.specs.Prelude.{◌≡◌, ◌∷◌, ◌↔◌, IsTrue, option_map};
ghost use Rattle.std.specs.Iterator.{YieldsFirstRef, item_count};
ghost use Rattle.mokabox_syntax.specs.Fields.{fields_of, fields_in, IsPadded, number_of, text_of, sole_of, sole_number_of, sole_text_of, texts_of, is_one_of, first_of, none_left};

/// The fields of a line that are not read yet.
#[derive(Drop)]
pub struct Fields<'a> {
    rest: Option<&'a str>,
}

impl<'a> Fields<'a> {
    ghost use Rattle.mokabox_syntax.specs.FieldsLeft.{fields_left};

    /// Returns all fields of a line.
    pub fn of(line: &'a str) -> Fields<'a>
        ensures { fields_left result ≡ fields_of line.now }
    {
        Fields { rest: Some(line) }
    }

    /// Returns the only field left, or `None` if there is not exactly one.
    pub fn sole_field(mut self) -> Option<&'a str>
        ensures { option_map (λ x. x.now) result ≡ sole_of (fields_left self.entry) }
    {
        let field = self.next()?;
        match self.next() {
            None => Some(field),
            Some(_) => None,
        }
    }

    /// Returns the only field left, as a number.
    pub fn sole_number(self) -> Option<u64>
        ensures { result ≡ sole_number_of (fields_left self.entry) }
    {
        number(self.sole_field()?)
    }

    /// Returns the only field left, as a text.
    pub fn sole_text(self) -> Option<&'a str>
        ensures { option_map (λ x. x.now) result ≡ sole_text_of (fields_left self.entry) }
    {
        text(self.sole_field()?)
    }

    /// Takes the first field, and returns it as a number.
    pub fn next_number(&mut self) -> Option<u64>
        ensures { option_map (λ n. (n, fields_left self.new)) result
            ≡ first_of number_of (fields_left self.old) }
    {
        number(self.next()?)
    }

    /// Returns `Some` exactly if no field is left.
    pub fn none_left(mut self) -> Option<()>
        ensures { result ≡ none_left (fields_left self.entry) }
    {
        let None = self.next() else {
            return None;
        };
        Some(())
    }

    /// Returns the fields that are left as they are in the line, as texts. `None` if none is left,
    /// or if one is empty.
    pub fn texts(self) -> Option<&'a str>
        ensures { option_map (λ x. x.now) result ≡ texts_of (fields_left self.entry) }
    {
        let texts = self.rest?;
        for part in Fields::of(texts) {
            if part.is_empty() {
                return None;
            }
        }
        Some(texts)
    }

    /// Returns whether one of the fields that are left is this text.
    pub fn contains(self, text: &str) -> bool
        ensures { result ≡ is_one_of text.now (fields_left self.entry) }
    {
        for field in self {
            if field == text {
                return true;
            }
        }
        false
    }
}

impl<'a> Iterator for Fields<'a> {
    ghost use Rattle.mokabox_syntax.specs.FieldsLeft.{fields_left};

    type Item = &'a str;

    ghost next_gives = { YieldsFirstRef fields_left };

    ghost remaining = { item_count fields_left };

    fn next(&mut self) -> Option<&'a str> {
        let (field, rest) = cut(self.rest?);
        self.rest = rest;
        Some(field)
    }
}

/// Returns the first field of a line, and what follows the space that ends it.
fn cut(line: &str) -> (&str, Option<&str>)
    ensures { fields_of line.now ≡ result.0.now ∷ fields_in result.1 }
{
    match line.split_once(' ') {
        Some((field, rest)) => (field, Some(rest)),
        None => (line, None),
    }
}

/// Returns the number that a field spells, or `None`. A number is decimal digits, without sign and
/// leading zeros, at most `u64::MAX`.
pub fn number(field: &str) -> Option<u64>
    ensures { result ≡ number_of field.now }
{
    if is_padded(field) {
        return None;
    }
    field.parse().ok()
}

/// Returns whether a field begins with a plus sign, or with a zero that is not its only byte. No
/// number does.
fn is_padded(field: &str) -> bool
    ensures { IsTrue result ↔ IsPadded field.now }
{
    matches!(field.as_bytes(), [b'+', ..] | [b'0', _, ..])
}

/// Returns the field as a text, or `None` if it is empty.
pub fn text(field: &str) -> Option<&str>
    ensures { option_map (λ x. x.now) result ≡ text_of field.now }
{
    if field.is_empty() { None } else { Some(field) }
}
