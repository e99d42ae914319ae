ghost use Rattle.std.specs.Prelude.{◌≡◌, ◌++◌};
ghost use Rattle.std.specs.Result.{OnOk};
ghost use Rattle.rx_settle.specs.Providers.{is_same, named, provider_of};
ghost use Rattle.rx_settle.specs.Counting.{field_text};

use rx_d0_values::Reply;
use rx_fields::Provider;
use std::alloc::AllocError;

/// A provider as a reply's field has it, filled with blanks to 15 bytes; all blanks stand for all that are no id.
pub type Field = [u8; 15];

/// The provider of a reply.
pub(crate) fn provider_field(reply: &Reply) -> Field
    ensures { result ≡ field_text (provider_of reply.now) }
{
    known_or_blank(reply.echo.parts().provider)
}

/// The field where it names a provider, else blanks: what stands for the provider among the tallies.
pub fn known_or_blank(field: Field) -> Field
    ensures { result ≡ field_text (named field) }
{
    if Provider::new(&field).is_ok() {
        field
    } else {
        [b' '; 15]
    }
}

/// Whether a field names the provider with this id, which is empty where the field holds none.
pub fn names_provider(id: &[u8], field: &Field) -> bool
    ensures { result ≡ is_same id.now (named field.now) }
{
    match Provider::new(field) {
        Ok(provider) => id == provider.bytes(),
        Err(_) => id.is_empty(),
    }
}

/// Writes the provider without trailing blanks; nothing for all blanks.
pub(crate) fn put_provider(text: &mut Vec<u8>, field: &Field) -> Result<(), AllocError>
    ensures { OnOk result (text.new.items ≡ text.old.items ++ named field.now) }
{
    match Provider::new(field) {
        Ok(provider) => text.extend_from_slice(provider.bytes()),
        Err(_) => Ok(()),
    }
}
