//! A plan's name in what is printed of it as JSON.
use rx_fields::Memory;
use rx_print::Page;
use serde_json::Value;
use std::alloc::Global;

/// Adds the objects of these lines, one on each, with the plan's name as their first member.
pub fn put_named_lines(page: &mut Page, name: &str, lines: &[u8]) -> Result<(), Memory> {
    let member = name_member(page.alloc(), name)?;
    for line in lines.split(|byte| *byte == b'\n') {
        if let [b'{', rest @ ..] = line {
            put_object(page, member.as_str(), rest);
            page.say("\n");
        }
    }
    Ok(())
}

/// Adds the object of which this is what follows the brace, with a member before it.
pub fn put_object(page: &mut Page, member: &str, rest: &[u8]) {
    page.say("{");
    page.say(member);
    page.put(rest);
}

/// The member of a plan's name, and a comma.
pub fn name_member(alloc: Global, name: &str) -> Result<String, Memory> {
    let name = Value::try_from_str(alloc, name)?.to_string(alloc)?;
    Ok(format!(in alloc; "\"plan\":{name},")?)
}
