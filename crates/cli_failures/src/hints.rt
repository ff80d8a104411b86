//! What to do about each failure.

use crate::failure::{Failure, StoreRefusal};
use crate::looking::{Found, is_in_use, look_at};
use cli_words::Line;
use statements_facts::Profile;
use std::io;
use std::io::Write;

// A value that is refused: PEM is the usual cause.
fn hint_about_value<W: Write>(
    rt: &HostRuntime,
    file: &str,
    wanted: &str,
    topic: u8,
    writer: &mut W,
) -> io::Result<()> {
    if look_at(rt, file) == Found::Pem {
        writeln!(
            writer,
            "{file} is PEM, and DER is wanted: 'to_der {file} > FILE' converts it"
        )
    } else {
        writeln!(
            writer,
            "{file} has to hold {wanted} in DER: 'x509check explain {topic}' says what is wrong with it"
        )
    }
}

// The number of the fault of a list that does not speak for all certificates of a kind.
const SCOPE: u8 = 48;

// A list that speaks for a part of its issuer's certificates.
fn hint_about_scope<W: Write>(profile: Profile, file: &str, writer: &mut W) -> io::Result<()> {
    match profile {
        Profile::Stated => writeln!(
            writer,
            "if {file} is published for one distribution point, '--profile wide' in front of the command takes it, into a store that was made so: 'x509check explain 48'"
        ),
        Profile::Wide => writeln!(
            writer,
            "'x509check explain 48' says what is wrong with {file}"
        ),
    }
}

// A statement that is not genuine under the issuer.
fn hint_about_issuer<W: Write>(file: &str, topic: u8, writer: &mut W) -> io::Result<()> {
    match topic {
        53 => writeln!(
            writer,
            "--issuer has to be the certificate of the authority that signed {file}: 'x509check show --as crl {file}' names it"
        ),
        54 => writeln!(
            writer,
            "no line of the verdicts is for {file} under the key of --issuer: 'verdicts --as crl ISSUER {file}' judges the signature and prints the line"
        ),
        57 => writeln!(
            writer,
            "no signer of {file} is believed: 'verdicts --as ocsp ISSUER {file}' judges the signatures and prints the lines; 'x509check explain 57' says what a delegate needs"
        ),
        _ => writeln!(
            writer,
            "'x509check explain {topic}' says what is wrong with {file}"
        ),
    }
}

// A file that cannot be read.
fn hint_about_file<W: Write>(rt: &HostRuntime, file: &str, writer: &mut W) -> io::Result<()> {
    match look_at(rt, file) {
        Found::Nothing => writeln!(writer, "there is no file {file}"),
        Found::Folder => writeln!(writer, "{file} is a folder, and a file is wanted"),
        Found::Forbidden => writeln!(writer, "this user may not open {file}"),
        Found::Pem | Found::Database | Found::Other => {
            writeln!(writer, "{file} could not be read to its end")
        }
    }
}

// A store that did not open, or did not answer.
fn hint_about_store<W: Write>(rt: &HostRuntime, path: &str, writer: &mut W) -> io::Result<()> {
    if is_in_use(rt, path) {
        return writeln!(
            writer,
            "another process has the store {path} open; --wait SECONDS in front of the command waits longer"
        );
    }
    match look_at(rt, path) {
        Found::Nothing => writeln!(
            writer,
            "there is no store {path}, and none can be made: its folder has to be there and writable"
        ),
        Found::Folder => writeln!(
            writer,
            "{path} is a folder, and the file of a store is wanted"
        ),
        Found::Forbidden => writeln!(writer, "this user may not open the store {path}"),
        Found::Pem | Found::Other => writeln!(writer, "{path} is no store, but another file"),
        Found::Database => writeln!(
            writer,
            "the store {path} could not be used: are the file, its -wal and its folder writable, and is the disk full?"
        ),
    }
}

fn hint_about_stores<W: Write>(
    rt: &HostRuntime,
    line: &Line<'_>,
    writer: &mut W,
) -> io::Result<()> {
    match line {
        Line::Deliver { store, .. }
        | Line::Check { store, .. }
        | Line::CheckWithPolicies { store, .. }
        | Line::Find { store, .. }
        | Line::List { store, .. }
        | Line::Session { store, .. } => hint_about_store(rt, store, writer),
        Line::Compare { store, other, .. } => {
            let first = look_at(rt, store);
            let is_first = first != Found::Database || is_in_use(rt, store);
            let failed = if is_first { *store } else { *other };
            hint_about_store(rt, failed, writer)
        }
        _ => writeln!(writer, "no store is used by this command"),
    }
}

// Another database, or a store that was changed.
fn hint_about_schema<W: Write>(profile: Profile, writer: &mut W) -> io::Result<()> {
    let (asked, other) = match profile {
        Profile::Stated => ("stated", "wide"),
        Profile::Wide => ("wide", "stated"),
    };
    writeln!(
        writer,
        "no store of the profile '{asked}': --profile {other} in front of the command opens one of the other, or the file is that of another program, or was changed by one: 'x509check explain 72'"
    )
}

fn hint_about_time<W: Write>(line: &Line<'_>, writer: &mut W) -> io::Result<()> {
    let moment = match line {
        Line::Check { query, .. }
        | Line::CheckWithPolicies { query, .. }
        | Line::Compare { query, .. } => query.moment,
        Line::Find { search, .. } => search.moment,
        Line::List {
            moment: Some(moment),
            ..
        } => *moment,
        _ => "",
    };
    writeln!(
        writer,
        "--at '{moment}' is no moment: write YYYYMMDDHHMMSSZ, as 20261201000000Z for the begin of December 2026 in UTC"
    )
}

fn hint_about_purpose<W: Write>(writer: &mut W) -> io::Result<()> {
    writeln!(
        writer,
        "--purpose takes an object identifier in dotted form, as 1.3.6.1.5.5.7.3.1 for serverAuth, ..3.2 for clientAuth, ..3.4 for emailProtection"
    )
}

/// Writes the line, which begins with `hint: `, about a run of this profile. It looks at the files that the failure names once more: what
/// is found may have changed.
pub fn hint_to<W: Write>(
    rt: &HostRuntime,
    profile: Profile,
    line: &Line<'_>,
    failure: &Failure<'_>,
    writer: &mut W,
) -> io::Result<()> {
    writer.write_all(b"hint: ")?;
    match failure {
        Failure::Refused { file, .. } => {
            hint_about_value(rt, file, "one value", failure.topic(), writer)
        }
        Failure::NoCertificate { file, .. } => {
            hint_about_value(rt, file, "a certificate", failure.topic(), writer)
        }
        Failure::NoRevocationList { file, .. } if failure.topic() == SCOPE => {
            hint_about_scope(profile, file, writer)
        }
        Failure::NotGenuine { file, .. } if failure.topic() == SCOPE => {
            hint_about_scope(profile, file, writer)
        }
        Failure::NoRevocationList { file, .. } => {
            hint_about_value(rt, file, "a revocation list", failure.topic(), writer)
        }
        Failure::NoResponse { file, .. } => {
            hint_about_value(rt, file, "an OCSP response", failure.topic(), writer)
        }
        Failure::NotGenuine { file, .. } => {
            if failure.topic() < 53 {
                hint_about_value(rt, file, "a list or a response", failure.topic(), writer)
            } else {
                hint_about_issuer(file, failure.topic(), writer)
            }
        }
        Failure::BadLine { file, line } => writeln!(
            writer,
            "a line of {file} is 64 hexadecimal digits, and then nothing, or a space and any text; line {line} is not, or ends in a carriage return"
        ),
        Failure::BadTime => hint_about_time(line, writer),
        Failure::BadPurpose => hint_about_purpose(writer),
        Failure::BadPolicy { .. } => writeln!(
            writer,
            "--policy takes an object identifier in dotted form, as 2.23.140.1.2.1, or 2.5.29.32.0 for any policy"
        ),
        Failure::BadName { .. } => writeln!(
            writer,
            "a name is a host, as mail.example.org, an IP address, or a mailbox, as ann@example.org"
        ),
        Failure::BadTopic => writeln!(
            writer,
            "explain takes a number or a name, as 'x509check explain 4' or 'x509check explain Truncated'; without a word it explains all"
        ),
        Failure::Unreadable { file } => hint_about_file(rt, file, writer),
        Failure::Unwritable => writeln!(writer, "standard output was closed, or its disk is full"),
        Failure::StoreFailed {
            refusal: StoreRefusal::Schema,
        } => hint_about_schema(profile, writer),
        Failure::StoreFailed { .. } | Failure::Shut => hint_about_stores(rt, line, writer),
        Failure::NoMemory => writeln!(writer, "free memory, or raise the limit of the process"),
        Failure::NoInput => writeln!(writer, "standard input could not be read to its end"),
    }
}
