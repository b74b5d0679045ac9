ghost use Rattle.std.specs.Prelude.{◌≡◌, ℕ, List};
ghost use Rattle.std.specs.Option.{option_copied};
ghost use Rattle.sw_message.specs.Fields.{is_named};

use crate::framing::has_field;
use std::marker::Model;
use sw_outside::Bytes;

/// A field of a message: its name as it was written, and its value without the white space around it.
#[derive(Debug, Drop)]
pub struct Field {
    pub name: Bytes,
    pub value: Bytes,
}

/// The fields of a message, in the order in which they stand. Contracts see the list of them.
#[derive(Debug, Drop)]
pub struct FieldList {
    vec: Vec<Field>,
}

impl Model for FieldList {
    ghost use Rattle.std.specs.Prelude.{List};
    ghost use Rattle.sw_message.specs.declared.fields.Field.{Field};

    ghost Value = { List Field };

    ghost view = { λ l. l.vec.items };
}

impl FieldList {
    ghost use Rattle.sw_message.specs.Fields.{field_value_of, has_field as has_field_named};

    pub fn as_slice(&self) -> &[Field]
        ensures { result.now ≡ self.now }
    {
        &self.vec
    }

    /// Whether a field has this name, compared without case.
    pub fn has(&self, name: &[u8]) -> bool
        ensures { result ≡ has_field_named name.now self.now }
    {
        has_field(name, &self.vec)
    }

    /// The value of the field of this name, compared without case. Where several have the name, the last one counts.
    pub fn value_of(&self, name: &[u8]) -> Option<&[u8]>
        ensures { option_copied result ≡ field_value_of name.now self.now }
    {
        let found = self
            .vec
            .iter()
            .rev()
            .find(|field| field.name.as_slice().eq_ignore_ascii_case(name));
        found.map(|field| field.value.as_slice())
    }
}

/// Whether the field has this name, compared without case.
pub(crate) fn is_named(name: &[u8], field: &Field) -> bool
    ensures { result ≡ is_named name.now field.now }
{
    field.name.as_slice().eq_ignore_ascii_case(name)
}

/// Moves the fields: no memory is taken.
impl From<Vec<Field>> for FieldList {
    ghost from_gives = { λ vec fields. fields ≡ vec.items };

    fn from(vec: Vec<Field>) -> FieldList {
        FieldList { vec }
    }
}

/// Gives the fields back: no memory is taken.
impl From<FieldList> for Vec<Field> {
    ghost from_gives = { λ fields vec. vec.items ≡ fields };

    fn from(fields: FieldList) -> Vec<Field> {
        fields.vec
    }
}
