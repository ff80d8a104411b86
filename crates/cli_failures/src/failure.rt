//! Why a run failed: the line on standard error and the exit status.
ghost use Rattle.std.specs.Prelude.{◌≡◌, OnOk};
ghost use Rattle.std.specs.Io.KnownBytes.{Appends};
ghost use Rattle.cli_failures.specs.Report.{bad_line, bad_name_line, bad_policy_line, line_words, place_text, printed_fault_number, printed_name, printed_number, printed_statement_name, printed_statement_number, refusal_line, report_line, response_line, statement_line, exit_status, store_fault_line, store_refusal_number, told_line, topic_of, unreadable_line, unsuccessful_line, unsuccessful_words};

use asn::Fault;
use cert::CertRule;
use cli_answers::{FAILED, MISTAKEN, REFUSED};
use statements_parts::{StatementFault, StatementRule};
use std::io;
use std::io::Write;

/// Why a store does not answer, whatever database it is in.
#[derive(Clone, Copy, Debug, PartialEq, Eq)]
pub enum StoreRefusal {
    /// The database refused.
    Store,
    /// The tables are not those of a store.
    Schema,
}

impl StoreRefusal {
    /// The number of the fault, 71 or 72.
    pub fn number(self) -> u8
        ensures { result ≡ store_refusal_number self }
    {
        match self {
            StoreRefusal::Store => 71,
            StoreRefusal::Schema => 72,
        }
    }
}

/// Why a run failed, once its words were read.
#[derive(Clone, Copy, Debug, PartialEq, Eq)]
pub enum Failure<'a> {
    /// The file is not DER.
    Refused {
        file: &'a str,
        fault: Fault,
    },
    /// The file is no certificate: the rule that it breaks, and where.
    NoCertificate {
        file: &'a str,
        rule: CertRule,
        at: usize,
    },
    /// The file is no revocation list: the rule that it breaks, and where.
    NoRevocationList {
        file: &'a str,
        rule: StatementRule,
        at: usize,
    },
    /// The file is no response: the rule that it breaks, and where.
    NoResponse {
        file: &'a str,
        rule: StatementRule,
        at: usize,
    },
    /// The file is no statement of the issuer that the issuer, or who may answer for it, signed.
    NotGenuine {
        file: &'a str,
        fault: StatementFault,
    },
    /// On this line of the file of verdicts, counted from 1, stands no fingerprint.
    BadLine {
        file: &'a str,
        line: usize,
    },
    /// The moment is none of the calendar, or not spelled as one.
    BadTime,
    /// The purpose is no OBJECT IDENTIFIER in dotted decimal.
    BadPurpose,
    /// The word is no policy: no OBJECT IDENTIFIER in dotted decimal.
    BadPolicy {
        word: &'a str,
    },
    /// The name is no host, no IP address and no mailbox; where it stops being one.
    BadName {
        at: usize,
    },
    /// There is no fault, reason or status of these words to explain.
    BadTopic,
    /// The file cannot be read.
    Unreadable {
        file: &'a str,
    },
    /// Standard output cannot be written.
    Unwritable,
    /// The store does not answer.
    StoreFailed {
        refusal: StoreRefusal,
    },
    /// There is not enough memory.
    NoMemory,
    /// The connection of a session's store was shut, behind the answers that were written.
    Shut,
    /// Standard input cannot be read, behind the answers that were written.
    NoInput,
}

fn write_place<W: Write>(place: Option<usize>, writer: &mut W) -> io::Result<()>
    ensures { OnOk result (Appends (W.contents writer.old) (W.contents writer.new)
        (place_text place)) }
{
    match place {
        Some(at) => write!(writer, " at {at}"),
        None => Ok(()),
    }
}

// The line of a fault with this number, name and place.
fn write_refusal<W: Write>(
    file: &str,
    number: u8,
    name: &str,
    place: Option<usize>,
    writer: &mut W,
) -> io::Result<()>
    ensures { OnOk result (Appends (W.contents writer.old) (W.contents writer.new)
        (refusal_line file.now number name.now place)) }
{
    write!(writer, "{file}: refused {number} {name}")?;
    write_place(place, writer)?;
    writer.write_all(b"\n")
}

// The number of the rule; for octets that are not DER, that of the rule of DER.
fn printed_number(rule: CertRule) -> u8
    ensures { result ≡ printed_number rule }
{
    match rule {
        CertRule::Der(inner) => inner.number(),
        _ => rule.number(),
    }
}

// The word that stands beside it.
fn printed_name(rule: CertRule) -> &'static str
    ensures { result.now ≡ printed_name rule }
{
    match rule {
        CertRule::Der(inner) => inner.name(),
        _ => rule.name(),
    }
}

// The same of a rule of statements.
fn printed_statement_number(rule: StatementRule) -> u8
    ensures { result ≡ printed_statement_number rule }
{
    match rule {
        StatementRule::Der(inner) => inner.number(),
        _ => rule.number(),
    }
}

fn printed_statement_name(rule: StatementRule) -> &'static str
    ensures { result.now ≡ printed_statement_name rule }
{
    match rule {
        StatementRule::Der(inner) => inner.name(),
        _ => rule.name(),
    }
}

// The same of a statement that is not genuine.
fn printed_fault_number(fault: StatementFault) -> u8
    ensures { result ≡ printed_fault_number fault }
{
    match fault {
        StatementFault::Refused(rule, _) => printed_statement_number(rule),
        _ => fault.number(),
    }
}

#[tactic(auto, unfolding(crate::specs::Report::unsuccessful_words))]
fn write_unsuccessful_words<W: Write>(code: u8, writer: &mut W) -> io::Result<()>
    ensures { OnOk result (Appends (W.contents writer.old) (W.contents writer.new)
        (unsuccessful_words code)) }
{
    writeln!(writer, ": refused 55 NotSuccessful {code}")
}

fn write_unsuccessful<W: Write>(file: &str, code: u8, writer: &mut W) -> io::Result<()>
    ensures { OnOk result (Appends (W.contents writer.old) (W.contents writer.new)
        (unsuccessful_line file.now code)) }
{
    write!(writer, "{file}")?;
    write_unsuccessful_words(code, writer)
}

// The line of a statement that is not genuine, or was refused as the layout says.
fn write_not_genuine<W: Write>(file: &str, fault: StatementFault, writer: &mut W) -> io::Result<()>
    ensures { OnOk result (Appends (W.contents writer.old) (W.contents writer.new)
        (statement_line file.now fault)) }
{
    match fault {
        StatementFault::Refused(rule, at) => write_no_response(file, rule, at, writer),
        _ => write_refusal(file, fault.number(), fault.name(), fault.place(), writer),
    }
}

// The line of a response that was refused: one that is not successful says so by its status.
fn write_no_response<W: Write>(
    file: &str,
    rule: StatementRule,
    at: usize,
    writer: &mut W,
) -> io::Result<()>
    ensures { OnOk result (Appends (W.contents writer.old) (W.contents writer.new)
        (response_line file.now rule at)) }
{
    match rule {
        StatementRule::NotSuccessful(code) => write_unsuccessful(file, code, writer),
        _ => write_refusal(
            file,
            printed_statement_number(rule),
            printed_statement_name(rule),
            Some(at),
            writer,
        ),
    }
}

#[tactic(auto, unfolding(crate::specs::Report::line_words))]
fn write_line_number<W: Write>(line: usize, writer: &mut W) -> io::Result<()>
    ensures { OnOk result (Appends (W.contents writer.old) (W.contents writer.new)
        (line_words line)) }
{
    writeln!(writer, ": line {line}")
}

fn write_bad_line<W: Write>(file: &str, line: usize, writer: &mut W) -> io::Result<()>
    ensures { OnOk result (Appends (W.contents writer.old) (W.contents writer.new)
        (bad_line file.now line)) }
{
    write!(writer, "{file}")?;
    write_line_number(line, writer)
}

fn write_bad_name<W: Write>(at: usize, writer: &mut W) -> io::Result<()>
    ensures { OnOk result (Appends (W.contents writer.old) (W.contents writer.new)
        (bad_name_line at)) }
{
    writeln!(writer, "bad name at {at}")
}

fn write_bad_policy<W: Write>(word: &str, writer: &mut W) -> io::Result<()>
    ensures { OnOk result (Appends (W.contents writer.old) (W.contents writer.new)
        (bad_policy_line word.now)) }
{
    writeln!(writer, "bad policy {word}")
}

fn write_unreadable<W: Write>(file: &str, writer: &mut W) -> io::Result<()>
    ensures { OnOk result (Appends (W.contents writer.old) (W.contents writer.new)
        (unreadable_line file.now)) }
{
    writeln!(writer, "cannot read {file}")
}

fn write_store_failed<W: Write>(refusal: StoreRefusal, writer: &mut W) -> io::Result<()>
    ensures { OnOk result (Appends (W.contents writer.old) (W.contents writer.new)
        (store_fault_line refusal)) }
{
    writeln!(writer, "store fault {}", refusal.number())
}

fn write_text<W: Write>(text: &str, writer: &mut W) -> io::Result<()>
    ensures { OnOk result (Appends (W.contents writer.old) (W.contents writer.new) text.now) }
{
    writer.write_all(text.as_bytes())
}

impl<'a> Failure<'a> {
    /// The exit status.
    pub fn status(&self) -> u8
        ensures { result ≡ exit_status self.now }
    {
        match self {
            Failure::Refused { .. }
            | Failure::NoCertificate { .. }
            | Failure::NoRevocationList { .. }
            | Failure::NoResponse { .. }
            | Failure::NotGenuine { .. }
            | Failure::BadLine { .. } => REFUSED,
            Failure::BadTime
            | Failure::BadPurpose
            | Failure::BadPolicy { .. }
            | Failure::BadName { .. }
            | Failure::BadTopic => MISTAKEN,
            Failure::Unreadable { .. }
            | Failure::Unwritable
            | Failure::StoreFailed { .. }
            | Failure::NoMemory
            | Failure::Shut
            | Failure::NoInput => FAILED,
        }
    }

    /// The number of what is wrong, as the line prints it; 0 if it prints none.
    pub fn topic(&self) -> u8
        ensures { result ≡ topic_of self.now }
    {
        match self {
            Failure::Refused { fault, .. } => fault.number(),
            Failure::NoCertificate { rule, .. } => printed_number(*rule),
            Failure::NoRevocationList { rule, .. } | Failure::NoResponse { rule, .. } => {
                printed_statement_number(*rule)
            }
            Failure::NotGenuine { fault, .. } => printed_fault_number(*fault),
            Failure::StoreFailed { refusal } => refusal.number(),
            _ => 0,
        }
    }

    /// Writes the line that says so, behind the program's name.
    pub fn report<W: Write>(&self, writer: &mut W) -> io::Result<()>
        ensures { OnOk result (Appends (W.contents writer.old) (W.contents writer.new)
            (report_line self.now)) }
    {
        write_text("x509check: ", writer)?;
        self.tell(writer)
    }

    /// Writes the line that says so. It takes no memory.
    pub fn tell<W: Write>(&self, writer: &mut W) -> io::Result<()>
        ensures { OnOk result (Appends (W.contents writer.old) (W.contents writer.new)
            (told_line self.now)) }
    {
        match self {
            Failure::Refused { file, fault } => {
                write_refusal(file, fault.number(), fault.name(), fault.place(), writer)
            }
            Failure::NoCertificate { file, rule, at } => write_refusal(
                file,
                printed_number(*rule),
                printed_name(*rule),
                Some(*at),
                writer,
            ),
            Failure::NoRevocationList { file, rule, at } => write_refusal(
                file,
                printed_statement_number(*rule),
                printed_statement_name(*rule),
                Some(*at),
                writer,
            ),
            Failure::NoResponse { file, rule, at } => write_no_response(file, *rule, *at, writer),
            Failure::NotGenuine { file, fault } => write_not_genuine(file, *fault, writer),
            Failure::BadLine { file, line } => write_bad_line(file, *line, writer),
            Failure::BadTime => write_text("bad time\n", writer),
            Failure::BadPurpose => write_text("bad purpose\n", writer),
            Failure::BadPolicy { word } => write_bad_policy(word, writer),
            Failure::BadName { at } => write_bad_name(*at, writer),
            Failure::BadTopic => write_text("bad topic\n", writer),
            Failure::Unreadable { file } => write_unreadable(file, writer),
            Failure::Unwritable => write_text("cannot write\n", writer),
            Failure::StoreFailed { refusal } => write_store_failed(*refusal, writer),
            Failure::NoMemory => write_text("no memory\n", writer),
            Failure::Shut => write_text("store fault 71\n", writer),
            Failure::NoInput => write_text("cannot read standard input\n", writer),
        }
    }
}
