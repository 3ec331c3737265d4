ghost use Rattle.std.specs.Prelude.{◌≡◌, IfOk, IfErr, map};
ghost use Rattle.http_messages.specs.Field.{field_text};

use http_header::{HeaderName, HeaderValue};
use std::alloc::{AllocError, AllocFailed, Global};
use std::marker::Model;
use std::sync::Arc;

/// The most fields that a head or a trailer has.
pub const MOST_FIELDS: usize = 64;

/// A header field of a response (RFC 9110, section 5).
#[derive(Debug, Drop, PartialEq, Eq)]
pub struct Field {
    /// Its name, in lower case.
    pub name: HeaderName,
    /// Its value. In an [`crate::Answer`] it has no space or tab at an end.
    pub value: HeaderValue,
}

impl Field {
    /// An equal field. It shares the octets of the value, and those of a name that is not a
    /// standard one. `AllocError`: the owners could not be counted.
    pub fn copy(&self) -> Result<Field, AllocError>
        ensures { IfOk result (λ copy. copy ≡ self.now) }
    {
        let name = self.name.clone()?;
        let value = self.value.clone()?;
        Ok(Field { name, value })
    }
}

/// The fields of a response, in order. Copies share them.
///
/// A contract sees it as the list of their names and values.
#[derive(Drop)]
pub struct Fields {
    shared: Arc<Vec<Field>>,
}

impl Model for Fields {
    ghost use Rattle.std.specs.Prelude.{List, map};
    ghost use Rattle.std.specs.Arc.{arc_value};
    ghost use Rattle.http_messages.specs.Field.{FieldText, field_text};

    ghost Value = { List FieldText };

    ghost view = { λ f. map field_text (arc_value f.shared).items };
}

impl Fields {
    /// The list of these fields. It allocates the count of owners. Where there is no memory, the
    /// error gives the fields back.
    pub fn new(alloc: Global, fields: Vec<Field>) -> Result<Fields, AllocFailed<Vec<Field>>>
        ensures ok { IfOk result (λ made. made ≡ map field_text fields.items) }
        ensures value_returned { IfErr result (λ failed. failed.value ≡ fields) }
    {
        let shared = Arc::new(alloc, fields)?;
        Ok(Fields { shared })
    }

    /// The fields, in order.
    pub fn as_slice(&self) -> &[Field]
        ensures { map field_text result.now ≡ self.now }
    {
        self.shared.as_slice()
    }

    /// Equal fields, which both copies share. `AllocError`: the owners could not be counted.
    pub fn copy(&self) -> Result<Fields, AllocError>
        ensures { IfOk result (λ copy. copy ≡ self.now) }
    {
        let shared = Arc::try_clone(&self.shared)?;
        Ok(Fields { shared })
    }
}
