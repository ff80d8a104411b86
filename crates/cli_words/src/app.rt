//! The program and its subcommands, as clap sees them. Each subcommand is built in a function of its own.
ghost use Rattle.std.specs.Prelude.{◌≡◌, IfOk};
ghost use Rattle.clap.specs.Words.{App, app_of};
ghost use Rattle.cli_words.specs.App.{IsApp, HasRule, among_rule, anchors_rule, asking as asking_app, asking_policies as asking_policies_app, certificates_rule, check_app, compare_app, deliver_app, explain_app, file_rule, find_app, issuer_rule, kind_rule, list_app, moment_rule, program as program_app, prints_app, purpose_rule, session_app, show_app, store_rule, topic_rule, tree_app, verdicts_rule};

use crate::building::{Building, flag, needed, option, repeated};
use clap::{Arg, Command};
use std::alloc::{AllocError, Global};

const PROGRAM_HELP: &str = "In front of the command may stand:
  --hints           Say what to do about a failure, in a second line on standard error
  --wait SECONDS    How long to wait for a store that another process has open; 10 if left out
  --profile PROFILE 'wide' to take lists of distribution points, responses by SHA-256, and constraints on mail addresses and URIs, too;
                    'stated' if left out. A store is of one profile from its making
With no command:
  --version         Print the version, the kit that proved it, and the SHA-256 of the sources

Exit statuses:
  0 done, valid     1 invalid, no path found     2 revoked     3 unknown, gave up
  4 refused input     5 bad command line     6 a file, a store, memory or the output failed
  7 the verdicts differ
  'x509check explain status 3' says what one means, 'x509check explain 4' the same of a fault.";

const SESSION_HELP: &str = "Requests, a line each:
  believe HEX                              A signature with this fingerprint is good from now on
  forget                                   Forget what came by 'believe'
  deliver ISSUER FILE                      Put a list or a response into the store
  check TIME [purpose=OID] [POLICIES] ANCHOR FILE..
                                           The verdict on a path
  find TIME [purpose=OID] [name=NAME] ANCHORS [AMONG] FILE
                                           A path to the certificate, and its verdict
  prints [parts] KIND ISSUER FILE          What a verifier is asked; with parts, the texts too
  prints [parts] search ANCHORS [AMONG] FILE
                                           What it may be asked in a search
  quit                                     End the session
POLICIES are policy=OID, once or more often, and behind them [require-policy] [inhibit-mapping] [inhibit-any-policy].
ISSUER, ANCHOR and FILE are files, or 'hex:' and the octets; ANCHORS and AMONG have several certificates in a row.

Example: echo quit | x509check session --store store";

// FILE: it has to be there.
fn file<'a>(alloc: Global) -> Arg<'a>
    ensures { HasRule file_rule result }
{
    Arg::new(alloc, "file")
        .required(true)
        .value_name("FILE")
        .help("A file of one DER value")
}

fn tree<'a>(alloc: Global) -> Building<'a>
    ensures { IsApp tree_app result }
{
    Building::new(
        alloc,
        "tree",
        "Prints a DER value, a line for each value in it",
        "Example: x509check tree root.der",
    )
    .arg(file(alloc))
}

fn kind<'a>(alloc: Global) -> Arg<'a>
    ensures { HasRule kind_rule result }
{
    option(
        alloc,
        "as",
        "KIND",
        "What the file holds: cert, a certificate, which is the default, crl, a revocation list, or ocsp, an OCSP response",
    )
}

fn show<'a>(alloc: Global) -> Building<'a>
    ensures { IsApp show_app result }
{
    Building::new(
        alloc,
        "show",
        "Prints what a certificate, a revocation list or an OCSP response says",
        "Example: x509check show --as crl root.crl",
    )
    .arg(kind(alloc))
    .arg(flag(
        alloc,
        "all",
        "Also prints algorithms, dates and extensions, behind the other lines",
    ))
    .arg(file(alloc))
}

fn issuer<'a>(alloc: Global) -> Arg<'a>
    ensures { HasRule issuer_rule result }
{
    needed(
        alloc,
        "issuer",
        "ISSUER",
        "The file of the issuer's certificate",
    )
}

// `--among FILE`, as often as there are files.
fn among<'a>(alloc: Global, help: &'a str) -> Arg<'a>
    ensures { HasRule among_rule result }
{
    repeated(alloc, "among", "FILE", help)
}

fn prints<'a>(alloc: Global) -> Building<'a>
    ensures { IsApp prints_app result }
{
    Building::new(
        alloc,
        "prints",
        "Prints the fingerprints of what a verifier is asked about a certificate, a revocation list or an OCSP response",
        "Example: x509check prints --issuer root.der middle.der",
    )
    .arg(issuer(alloc))
    .arg(kind(alloc))
    .arg(flag(
        alloc,
        "parts",
        "Also prints what is verified: algorithm, key, message and signature, in hexadecimal",
    ))
    .arg(among(
        alloc,
        "A file of certificates in any order: prints what a verifier may be asked in a search for a path to FILE among them; the issuer's file then holds those of all trust anchors",
    ))
    .arg(file(alloc))
}

fn store<'a>(alloc: Global) -> Arg<'a>
    ensures { HasRule store_rule result }
{
    needed(
        alloc,
        "store",
        "STORE",
        "The file of the store of statements",
    )
}

fn verdicts<'a>(alloc: Global) -> Arg<'a>
    ensures { HasRule verdicts_rule result }
{
    needed(
        alloc,
        "verdicts",
        "VERDICTS",
        "A file of the fingerprints of good signatures, one a line, as 'prints' writes them",
    )
}

fn deliver<'a>(alloc: Global) -> Building<'a>
    ensures { IsApp deliver_app result }
{
    Building::new(
        alloc,
        "deliver",
        "Puts a revocation list or an OCSP response into a store, which is made where there is none",
        "Example: x509check deliver --store store --verdicts good --issuer root.der root.crl",
    )
    .arg(store(alloc))
    .arg(verdicts(alloc))
    .arg(issuer(alloc))
    .arg(file(alloc))
}

// FILE...: at least one.
fn certificates<'a>(alloc: Global) -> Arg<'a>
    ensures { HasRule certificates_rule result }
{
    Arg::new(alloc, "file")
        .required(true)
        .num_args(1..)
        .value_name("FILE")
        .help("The files of the certificates of the path, from the one that the anchor issued on")
}

fn moment<'a>(alloc: Global) -> Arg<'a>
    ensures { HasRule moment_rule result }
{
    needed(alloc, "at", "TIME", "The moment, as YYYYMMDDHHMMSSZ")
}

fn purpose<'a>(alloc: Global) -> Arg<'a>
    ensures { HasRule purpose_rule result }
{
    option(
        alloc,
        "purpose",
        "OID",
        "The purpose of the key of the last certificate, as an OBJECT IDENTIFIER in dotted decimal",
    )
}

// What `check` and `compare` ask.
fn asking<'a>(alloc: Global, command: Building<'a>) -> Building<'a>
    ensures { (a : App) → IsApp a command.entry → IsApp (asking_app a) result }
{
    command
        .arg(store(alloc))
        .arg(verdicts(alloc))
        .arg(moment(alloc))
        .arg(needed(
            alloc,
            "anchor",
            "ANCHOR",
            "The file of the trust anchor's certificate",
        ))
        .arg(purpose(alloc))
        .arg(certificates(alloc))
}

// What `check` may ask of policies.
fn asking_policies<'a>(alloc: Global, command: Building<'a>) -> Building<'a>
    ensures { (a : App) → IsApp a command.entry → IsApp (asking_policies_app a) result }
{
    command
        .arg(repeated(
            alloc,
            "policy",
            "OID",
            "A certificate policy that is taken, as an OBJECT IDENTIFIER in dotted decimal; may be given several times. Policies are processed then, and those at the end of the path are printed",
        ))
        .arg(flag(
            alloc,
            "require-policy",
            "With --policy: the path is invalid unless one of these policies is valid at its end",
        ))
        .arg(flag(
            alloc,
            "inhibit-mapping",
            "With --policy: no policy stands for another one",
        ))
        .arg(flag(
            alloc,
            "inhibit-any-policy",
            "With --policy: anyPolicy in a certificate stands for no other policy",
        ))
}

fn check<'a>(alloc: Global) -> Building<'a>
    ensures { IsApp check_app result }
{
    let command = Building::new(
        alloc,
        "check",
        "Validates a path of certificates at a moment, with what a store holds of their revocation",
        "Example: x509check check --store store --verdicts good --at 20261201000000Z --anchor root.der middle.der leaf.der",
    );
    asking_policies(alloc, asking(alloc, command))
}

fn compare<'a>(alloc: Global) -> Building<'a>
    ensures { IsApp compare_app result }
{
    let command = Building::new(
        alloc,
        "compare",
        "Compares the verdicts on a path by what two stores hold",
        "Example: x509check compare --store store --other other --verdicts good --at 20261201000000Z --anchor root.der middle.der leaf.der",
    );
    asking(alloc, command).arg(needed(alloc, "other", "STORE", "The file of the other store"))
}

// `--anchor FILE`, as often as there are files, and at least once.
fn anchors<'a>(alloc: Global) -> Arg<'a>
    ensures { HasRule anchors_rule result }
{
    repeated(
        alloc,
        "anchor",
        "FILE",
        "A file of the certificates of trust anchors, one behind the other; may be given several times",
    )
    .required(true)
}

// FILE: the one whose certificate is in question.
fn target<'a>(alloc: Global) -> Arg<'a>
    ensures { HasRule file_rule result }
{
    Arg::new(alloc, "file")
        .required(true)
        .value_name("FILE")
        .help("The file of the certificate in question")
}

fn find<'a>(alloc: Global) -> Building<'a>
    ensures { IsApp find_app result }
{
    Building::new(
        alloc,
        "find",
        "Finds a path to a certificate under trust anchors, among certificates in any order, and prints it with its verdict",
        "Example: x509check find --store store --verdicts good --at 20261201000000Z --anchor roots.der --among bag.der leaf.der",
    )
    .arg(store(alloc))
    .arg(verdicts(alloc))
    .arg(moment(alloc))
    .arg(anchors(alloc))
    .arg(among(
        alloc,
        "A file of certificates that may stand between an anchor and the target, in any order, one behind the other; may be given several times",
    ))
    .arg(purpose(alloc))
    .arg(option(
        alloc,
        "name",
        "NAME",
        "A host, an IP address, or a mailbox with its at sign, that the certificate has to speak for",
    ))
    .arg(target(alloc))
}

// WORD...: it may be left out.
fn topic<'a>(alloc: Global) -> Arg<'a>
    ensures { HasRule topic_rule result }
{
    Arg::new(alloc, "topic")
        .num_args(1..)
        .value_name("WORD")
        .help(
            "The number or the name of a fault or of a reason, as refusals and verdicts print them, or 'status N', 'rank N' or 'reason N'; all are explained if there is none",
        )
}

fn explain<'a>(alloc: Global) -> Building<'a>
    ensures { IsApp explain_app result }
{
    Building::new(
        alloc,
        "explain",
        "Says what a fault, a reason or an exit status means, and what to do about it",
        "Example: x509check explain status 3",
    )
    .arg(topic(alloc))
}

fn session<'a>(alloc: Global) -> Building<'a>
    ensures { IsApp session_app result }
{
    Building::new(
        alloc,
        "session",
        "Answers requests on standard input, a line each, over a store that stays open",
        SESSION_HELP,
    )
    .arg(store(alloc))
    .arg(option(
        alloc,
        "verdicts",
        "VERDICTS",
        "A file of the fingerprints of good signatures to begin with, one a line",
    ))
}

fn list<'a>(alloc: Global) -> Building<'a>
    ensures { IsApp list_app result }
{
    Building::new(
        alloc,
        "list",
        "Prints what a store holds: the newest lists and responses",
        "Example: x509check list --store store --at 20261201000000Z",
    )
    .arg(store(alloc))
    .arg(option(
        alloc,
        "at",
        "TIME",
        "A moment, as YYYYMMDDHHMMSSZ: also prints whether each statement is in force then",
    ))
}

/// The program's command, with all of its subcommands, one of which has to be named.
pub fn program<'a>(alloc: Global) -> Result<Command<'a>, AllocError>
    ensures { IfOk result (λ c. app_of c ≡ program_app) }
{
    Building::new(
        alloc,
        "x509check",
        "Looks at DER values, certificates, revocation lists and OCSP responses, and validates paths of certificates",
        PROGRAM_HELP,
    )
    .subcommand_required()
    .subcommand(tree(alloc))
    .subcommand(show(alloc))
    .subcommand(prints(alloc))
    .subcommand(deliver(alloc))
    .subcommand(check(alloc))
    .subcommand(compare(alloc))
    .subcommand(find(alloc))
    .subcommand(explain(alloc))
    .subcommand(session(alloc))
    .subcommand(list(alloc))
    .command
}
