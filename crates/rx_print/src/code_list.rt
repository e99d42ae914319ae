ghost use Rattle.std.specs.Prelude.{◌≡◌, ◌≤◌, ◌+◌, ◌*◌, ◌++◌, OnErr, OnOk, length, vec_capacity, vec_len};
ghost use Rattle.std.specs.List.{flat_map};
ghost use Rattle.rx_print.specs.CodeList.{after_comma, code_list};

use rx_d0_values::Codes;
use rx_fields::Code;
use rx_text::put;
use std::alloc::AllocError;

/// Puts reject codes at the end of a text, with a comma between each two.
///
/// # Errors
///
/// `AllocError` where a growth was refused; the text stays as it is.
#[tactic(auto, using(std::proofs::Common::append_assoc))]
pub fn put_codes(text: &mut Vec<u8>, given: &Codes) -> Result<(), AllocError>
    ensures text { OnOk result (text.new.items ≡ text.old.items ++ code_list given.now) }
    ensures err { OnErr result (text.new.items ≡ text.old.items) }
{
    let [first, others @ ..] = given.as_slice() else {
        unreachable!()
    };
    text.reserve(2 + 3 * others.len())?;
    put(text, &first.text());
    put_others(text, others);
    Ok(())
}

// Each code after a comma, for which there is room.
fn put_others(text: &mut Vec<u8>, others: &[Code])
    requires { vec_len text.old + 3 * length others.now ≤ vec_capacity text.old }
    ensures { text.new.items ≡ text.old.items ++ flat_map after_comma others.now }
{
    for code in others {
        put_other(text, *code);
    }
}

fn put_other(text: &mut Vec<u8>, code: Code)
    requires { vec_len text.old + 3 ≤ vec_capacity text.old }
    ensures text { text.new.items ≡ text.old.items ++ after_comma code }
    ensures len { vec_len text.new ≡ vec_len text.old + 3 }
    ensures capacity { vec_capacity text.old ≤ vec_capacity text.new }
{
    let [first, second] = code.text();
    put(text, &[b',', first, second]);
}
