//! What can be long is written as JSON token by token. The writer places the quotes, the colons and the commas.
//! A reply is defined as the text of a JSON value (`reply_line`). For a network such a value in the code would cost a `String` for each path.
ghost use Rattle.std.specs.Prelude.{◌≡◌, IfOk};
ghost use Rattle.serde_json.specs.Data.{Data, string};
ghost use Rattle.fb_messages.specs.{Replies.{list_of, one_member, reply_line, three, two}, Tokens.{IsSaid}};

use fb_text::Name;
use json::Writer;
use std::alloc::{AllocError, Global};

/// What can be written as JSON.
pub trait ToJson {
    ghost said: { Self → Data };

    fn write(&self, out: &mut Writer) -> Result<(), AllocError>
        ensures { IsSaid result out.old out.new (said self.now) };
}

impl ToJson for Name {
    ghost said = { string };

    fn write(&self, out: &mut Writer) -> Result<(), AllocError> {
        out.string(self.as_str())
    }
}

impl<T: ToJson> ToJson for Vec<T> {
    ghost said = { λ list. list_of T.said list.items };

    fn write(&self, out: &mut Writer) -> Result<(), AllocError> {
        out.begin_array()?;
        for item in self {
            item.write(out)?;
        }
        out.end_array()
    }
}

/// An array of two texts.
pub fn write_two(out: &mut Writer, first: &str, second: &str) -> Result<(), AllocError>
    ensures { IsSaid result out.old out.new (two first.now second.now) }
{
    out.begin_array()?;
    out.string(first)?;
    out.string(second)?;
    out.end_array()
}

/// An array of three texts.
pub fn write_three(
    out: &mut Writer,
    first: &str,
    second: &str,
    third: &str,
) -> Result<(), AllocError>
    ensures { IsSaid result out.old out.new (three first.now second.now third.now) }
{
    out.begin_array()?;
    out.string(first)?;
    out.string(second)?;
    out.string(third)?;
    out.end_array()
}

/// An object with one member.
pub fn write_one<T: ToJson>(out: &mut Writer, name: &str, value: &T) -> Result<(), AllocError>
    ensures { IsSaid result out.old out.new (one_member name.now (T.said value.now)) }
{
    out.begin_object()?;
    out.key(name)?;
    value.write(out)?;
    out.end_object()
}

/// The line of what is written as JSON, with its line feed.
pub fn written_line<T: ToJson>(alloc: Global, it: &T) -> Result<Vec<u8>, AllocError>
    ensures { IfOk result (λ line. line.items ≡ reply_line (T.said it.now)) }
{
    let mut out = Writer::new(Vec::new(alloc));
    it.write(&mut out)?;
    let mut line = out.into_inner();
    line.push(b'\n')?;
    Ok(line)
}
