//! Checking links in files against the commitments of two logs.
ghost use Rattle.std.specs.Prelude.{◌≡◌, Some, Err, IfOk, IfErr, IfSome, OnOk, OnErr};
ghost use Rattle.audit_cli_offline.specs.CommitmentWord.{commitment_in_word};
ghost use Rattle.audit_cli_base.specs.Arguments.{RefusesWords};
ghost use Rattle.audit_link.specs.Links.{link_in};
ghost use Rattle.audit_link.specs.LinkBytes.{SpellsLink};
ghost use Rattle.audit_cli_store.specs.LinkChecks.{LacksCommitment, IsUnreadFile, IsLinkChecked, ChecksLinkAt};
ghost use Rattle.audit_cli_store.specs.LinkChecks.{WritesLinkLine, IsSecond};
ghost use Rattle.audit_cli_base.specs.Faults.{IsNoWordFault};

use audit_cli_base::{CommandError, commitment_asked};
use audit_disk::{SystemFile, SystemFiles};
use audit_link::{Link, LinkError, LinkJudgment, check_link, read_link};
use audit_proof::Commitment;
use audit_store::StoreError;
use audit_text::{LinesError, read_input, write_whole};
use std::alloc::Global;
use std::io::{Read, Write};

/// What is asked of a link, with the words of the command line as given.
#[derive(Clone, Copy)]
pub struct LinkCheck<'a> {
    /// The file with the link.
    pub link: &'a str,
    /// The last commitment of the old log.
    pub old: &'a str,
    /// The new log's commitment after its first two entries. Without one, the request is refused.
    pub new: Option<&'a str>,
}

/// Checks a link against the commitments of two logs, and writes whether it is accepted, or which half isn't so.
///
/// | The bytes are | Result | Written |
/// |---|---|---|
/// | no link | `BadProof` | nothing |
/// | a link whose old half isn't so | `NotAccepted` | `not accepted: old half` |
/// | a link whose new half alone isn't so | `NotAccepted` | `not accepted: new half` |
/// | any other link | Ok | `accepted` |
///
/// Other errors occur only if reading, writing or memory failed. If the line couldn't be written completely, a prefix
/// of it has been written.
pub fn judge_link<R: Read, W: Write>(
    alloc: Global,
    reader: &mut R,
    old: &Commitment,
    new: &Commitment,
    writer: &mut W,
) -> Result<(), CommandError>
    ensures judged { IfSome (R.remaining reader.old) (λ bytes. IsLinkChecked result bytes old.now new.now
        (W.contents writer.old) (W.contents writer.new)) }
    ensures words { IfErr result IsNoWordFault }
{
    let link = link_in_file(alloc, reader)?;
    let judgment = check_link(alloc, &link, old, new)?;
    write_judged(judgment, writer)
}

// Writes the line of a judgment.
fn write_judged<W: Write>(judgment: LinkJudgment, writer: &mut W) -> Result<(), CommandError>
    ensures judged { WritesLinkLine judgment result (W.contents writer.old) (W.contents writer.new) }
    ensures words { IfErr result IsNoWordFault }
{
    match judgment {
        LinkJudgment::Accepted => Ok(write_whole(writer, b"accepted\n")?),
        LinkJudgment::OldHalf => {
            write_whole(writer, b"not accepted: old half\n")?;
            Err(CommandError::NotAccepted)
        }
        LinkJudgment::NewHalf => {
            write_whole(writer, b"not accepted: new half\n")?;
            Err(CommandError::NotAccepted)
        }
    }
}

// The link in a file, which contains nothing else. An input that is too long is no link.
fn link_in_file<R: Read>(alloc: Global, reader: &mut R) -> Result<Link, CommandError>
    ensures spelled { IfOk result (λ link. IfSome (R.remaining reader.old) (λ bytes. SpellsLink bytes (link_in link))) }
    ensures unread { IfErr result (λ fault. IfSome (R.remaining reader.old) (λ bytes. IsUnreadFile fault bytes)) }
    ensures words { IfErr result IsNoWordFault }
{
    match read_input(alloc, reader) {
        Ok(bytes) => link_of(alloc, &bytes),
        Err(LinesError::InputTooLong) => Err(CommandError::BadProof),
        Err(fault) => Err(CommandError::Lines(fault)),
    }
}

fn link_of(alloc: Global, bytes: &[u8]) -> Result<Link, CommandError>
    ensures spelled { IfOk result (λ link. SpellsLink bytes.now (link_in link)) }
    ensures unread { IfErr result (λ fault. IsUnreadFile fault bytes.now) }
    ensures words { IfErr result IsNoWordFault }
{
    match read_link(alloc, bytes) {
        Ok(link) => Ok(link),
        Err(LinkError::BadLink) => Err(CommandError::BadProof),
        Err(LinkError::Memory) => Err(CommandError::Refused(StoreError::Memory)),
    }
}

/// Checks the link in a file. The words are checked before the file is opened.
pub(crate) fn check_link_file<F: SystemFiles, W: Write>(
    rt: &F,
    alloc: Global,
    asked: LinkCheck<'_>,
    output: &mut W,
) -> Result<(), CommandError>
where
    F::File: SystemFile,
    ensures checked { OnOk result (ChecksLinkAt F.File.facts F.File.remaining asked.entry (W.contents output.old)
        (W.contents output.new)) }
    ensures words { RefusesWords (λ fault. LacksCommitment asked.entry × (fault ≡ CommandError.BadArgument))
        (W.contents output.old) (W.contents output.new) result }
    ensures only { result ≡ Err CommandError.BadArgument → LacksCommitment asked.entry }
{
    let (old, new) = words_asked(asked)?;
    let mut link = rt.open_to_read(asked.link)?;
    judge_link(alloc, &mut link, &old, &new, output)
}

// The two commitments in the words. The only error is `BadArgument`.
fn words_asked(asked: LinkCheck<'_>) -> Result<(Commitment, Commitment), CommandError>
    ensures wrong { LacksCommitment asked.entry → result ≡ Err CommandError.BadArgument }
    ensures old { IfOk result (λ found. commitment_in_word asked.entry.old.now ≡ Some found.0) }
    ensures new { IfOk result (λ found. IsSecond asked.entry.new found.1) }
    ensures fault { OnErr result (LacksCommitment asked.entry) }
{
    let Some(new) = asked.new else {
        return Err(CommandError::BadArgument);
    };
    Ok((commitment_asked(asked.old)?, commitment_asked(new)?))
}
