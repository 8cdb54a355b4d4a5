ghost use Rattle.std.specs.Prelude.{◌≡◌, ◌∷◌, ◌++◌, ◌<◌, [], length, map, IfOk, OnOk};
ghost use Rattle.std.specs.List.{flat_map};
ghost use Rattle.json.specs.Lex.{tokens};
ghost use Rattle.json.specs.Print.{print};
ghost use Rattle.json.specs.Token.{begin_array, end_array, string};
ghost use Rattle.lock_script.specs.Lines.{lines_of};
ghost use Rattle.mg_words.specs.Objects.{Adds, count_token, member_tokens, object_tokens, value_tokens};

use json::Writer;
use std::alloc::{AllocError, Global};

/// A value in an object of JSON.
#[derive(Clone, Copy, Debug)]
pub enum Value<'a> {
    Text(&'a str),
    /// A number as a string, for readers that keep numbers as doubles.
    Quoted(u64),
    Number(u64),
    /// How many there are, or null.
    Count(Option<u16>),
    Flag(bool),
    /// The lines of a text, as a list of strings.
    Lines(&'a str),
}

/// A name in an object, and its value.
#[derive(Clone, Copy, Debug)]
pub struct Member<'a> {
    pub name: &'a str,
    pub value: Value<'a>,
}

/// The text of an object with these members, in their order.
pub fn object_of(alloc: Global, members: &[Member<'_>]) -> Result<Vec<u8>, AllocError>
    ensures text { IfOk result (λ object. object.items ≡ print (object_tokens members.now)) }
    // A reader of JSON finds in it what it was made of.
    ensures read { IfOk result (λ object. tokens object.items ≡ object_tokens members.now) }
{
    let mut object = Writer::new(Vec::new(alloc));
    put_object(&mut object, members)?;
    Ok(object.into_inner())
}

fn put_object(object: &mut Writer, members: &[Member<'_>]) -> Result<(), AllocError>
    ensures { OnOk result (Adds object.old object.new (object_tokens members.now)) }
{
    object.begin_object()?;
    put_members(object, members)?;
    object.end_object()
}

fn put_members(object: &mut Writer, members: &[Member<'_>]) -> Result<(), AllocError>
    ensures { OnOk result (Adds object.old object.new (flat_map member_tokens members.now)) }
{
    for member in members {
        put_member(object, *member)?;
    }
    Ok(())
}

fn put_member(object: &mut Writer, member: Member<'_>) -> Result<(), AllocError>
    ensures { OnOk result (Adds object.old object.new (member_tokens member.entry)) }
{
    object.key(member.name)?;
    put_value(object, member.value)
}

fn put_value(object: &mut Writer, value: Value<'_>) -> Result<(), AllocError>
    ensures { OnOk result (Adds object.old object.new (value_tokens value.entry)) }
{
    match value {
        Value::Text(text) => object.string(text),
        Value::Quoted(number) => object.quoted_u64(number),
        Value::Number(number) => object.u64(number),
        Value::Count(count) => put_count(object, count),
        Value::Flag(flag) => object.boolean(flag),
        Value::Lines(text) => put_list(object, text),
    }
}

fn put_count(object: &mut Writer, count: Option<u16>) -> Result<(), AllocError>
    ensures { OnOk result (Adds object.old object.new (count_token count ∷ [])) }
{
    match count {
        Some(count) => object.u64(count as u64),
        None => object.null(),
    }
}

fn put_list(object: &mut Writer, text: &str) -> Result<(), AllocError>
    ensures { OnOk result (Adds object.old object.new (begin_array ∷ (map string (lines_of text.now) ++ end_array ∷ []))) }
{
    object.begin_array()?;
    put_lines(object, text)?;
    object.end_array()
}

fn put_lines(object: &mut Writer, text: &str) -> Result<(), AllocError>
    ensures { OnOk result (Adds object.old object.new (map string (lines_of text.now))) }
{
    let mut left = text;
    'lines: while !left.is_empty() {
        let (line, behind) = first_line(left);
        object.string(line)?;
        left = behind;
    }
    Ok(())
}

/// The first line without its end, and what stands behind it.
fn first_line(text: &str) -> (&str, &str)
    requires { 0 < length text.now }
    ensures lines { lines_of text.now ≡ result.0.now ∷ lines_of result.1.now }
    ensures shorter { length result.1.now < length text.now }
{
    match text.split_once('\n') {
        Some(cut) => cut,
        None => (text, ""),
    }
}
