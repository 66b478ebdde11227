ghost use Rattle.std.specs.Prelude.{◌≡◌, ◌++◌, ◌≤◌, IfOk, OnOk, OnErr, string_bytes, codes};
ghost use Rattle.std.specs.Fmt.{decimal};
ghost use Rattle.ldar_law.specs.declared.reply.Reply.TheVariants as replies;
ghost use Rattle.ldar_law.specs.Replies.{reply_text, HasRule};
ghost use Rattle.ldar_law.specs.Texts.{end_of_line};

use crate::paragraphs::paragraph;
use crate::request::What;
use crate::text::Text;
use fact_kinds::Memory;
use std::alloc::Global;

/// A reply of the office. Positions in the journal, facts of a batch and rules count from 1.
#[derive(Drop)]
pub enum Reply {
    /// The batch is kept at this position.
    Receipt {
        handheld: u16,
        number: u32,
        position: u32,
    },
    /// Another batch with this identity is kept at this position.
    Conflict {
        position: u32,
    },
    /// The first fact that fails a rule, and the least rule that it fails.
    Denied {
        fact: u16,
        rule: u8,
    },
    /// With the batch there would be this many facts, which is more than 8,000,000.
    Full {
        facts: u64,
    },
    Shown(Text),
    NoSuch(What),
    /// A disk error. The batch may or may not be kept.
    Fault,
    /// Out of memory. The batch is not kept.
    Memory,
}

impl Reply {
    /// Appends the line of the reply, or the text of a view. Appends nothing if it is out of memory.
    pub fn put_line(&self, alloc: Global, out: &mut Vec<u8>) -> Result<(), Memory>
        requires has_rule { HasRule self.now }
        ensures value { OnOk result (out.new.items ≡ out.old.items ++ reply_text self.now) }
        ensures unchanged { OnErr result (out.new.items ≡ out.old.items) }
    {
        match self {
            Reply::Receipt {
                handheld,
                number,
                position,
            } => put_receipt(alloc, *handheld, *number, *position, out),
            Reply::Conflict { position } => put_conflict(alloc, *position, out),
            Reply::Denied { fact, rule } => put_denied(alloc, *fact, *rule, out),
            Reply::Full { facts } => put_full(alloc, *facts, out),
            Reply::Shown(text) => out.extend_from_slice(text.as_bytes()),
            Reply::NoSuch(what) => put_no_such(alloc, *what, out),
            Reply::Fault => out.extend_from_slice(b"disk fault\n"),
            Reply::Memory => out.extend_from_slice(b"memory\n"),
        }
    }
}

fn put_receipt(
    alloc: Global,
    handheld: u16,
    number: u32,
    position: u32,
    out: &mut Vec<u8>,
) -> Result<(), Memory>
    ensures value { OnOk result (out.new.items ≡ out.old.items ++ reply_text (replies.Receipt handheld number position)) }
    ensures unchanged { OnErr result (out.new.items ≡ out.old.items) }
{
    let line = receipt_line(alloc, handheld, number, position)?;
    out.extend_from_slice(line.as_bytes())
}

fn receipt_line(alloc: Global, handheld: u16, number: u32, position: u32) -> Result<String, Memory>
    ensures { IfOk result (λ line. string_bytes line ≡ reply_text (replies.Receipt handheld number position)) }
{
    format!(in alloc; "receipt {handheld} {number} {position}\n")
}

fn put_conflict(alloc: Global, position: u32, out: &mut Vec<u8>) -> Result<(), Memory>
    ensures value { OnOk result (out.new.items ≡ out.old.items ++ reply_text (replies.Conflict position)) }
    ensures unchanged { OnErr result (out.new.items ≡ out.old.items) }
{
    let line = format!(in alloc; "conflict {position}\n")?;
    out.extend_from_slice(line.as_bytes())
}

fn put_denied(alloc: Global, fact: u16, rule: u8, out: &mut Vec<u8>) -> Result<(), Memory>
    requires first { 1 ≤ rule }
    requires last { rule ≤ 21 }
    ensures value { OnOk result (out.new.items ≡ out.old.items ++ reply_text (replies.Denied fact rule)) }
    ensures unchanged { OnErr result (out.new.items ≡ out.old.items) }
{
    let line = denied_line(alloc, fact, rule, paragraph(rule))?;
    out.extend_from_slice(line.as_bytes())
}

fn denied_line(alloc: Global, fact: u16, rule: u8, paragraph: &str) -> Result<String, Memory>
    ensures { IfOk result (λ line. string_bytes line
        ≡ codes "denied " ++ decimal fact ++ codes " " ++ decimal rule ++ codes " " ++ paragraph.now ++ end_of_line) }
{
    format!(in alloc; "denied {fact} {rule} {paragraph}\n")
}

fn put_full(alloc: Global, facts: u64, out: &mut Vec<u8>) -> Result<(), Memory>
    ensures value { OnOk result (out.new.items ≡ out.old.items ++ reply_text (replies.Full facts)) }
    ensures unchanged { OnErr result (out.new.items ≡ out.old.items) }
{
    let line = format!(in alloc; "full {facts}\n")?;
    out.extend_from_slice(line.as_bytes())
}

fn put_no_such(alloc: Global, what: What, out: &mut Vec<u8>) -> Result<(), Memory>
    ensures value { OnOk result (out.new.items ≡ out.old.items ++ reply_text (replies.NoSuch what)) }
    ensures unchanged { OnErr result (out.new.items ≡ out.old.items) }
{
    let line = no_such_line(alloc, what.word())?;
    out.extend_from_slice(line.as_bytes())
}

fn no_such_line(alloc: Global, word: &str) -> Result<String, Memory>
    ensures { IfOk result (λ line. string_bytes line ≡ codes "no such " ++ word.now ++ end_of_line) }
{
    format!(in alloc; "no such {word}\n")
}
