//! `x509check_fault_name` and `x509check_reason_name`.

ghost use Rattle.std.specs.Prelude.{◌≡◌, length};
ghost use Rattle.capi.specs.Names.{NamesAreOfFaults, NamesAreOfRanks, certificate_fault, der_or_name_fault, numbered_fault_name, rank_name, revocation_name, statement_fault, verdict_reason, written_over};

use capi_values::{INVALID, REVOKED};

fn der_or_name_fault(number: u32) -> &'static str
    ensures { result.now ≡ der_or_name_fault number }
{
    match number {
        1 => "TagForm",
        2 => "LengthForm",
        3 => "TooLong",
        4 => "Truncated",
        5 => "TooDeep",
        6 => "Content",
        7 => "Trailing",
        8 => "Memory",
        11 => "NameLayout",
        12 => "RdnRepeat",
        13 => "SetOrder",
        14 => "Text",
        15 => "DnsForm",
        16 => "IpForm",
        17 => "MaskForm",
        18 => "MailForm",
        19 => "UriForm",
        _ => "",
    }
}

fn certificate_fault(number: u32) -> &'static str
    ensures { result.now ≡ certificate_fault number }
{
    match number {
        21 => "Der",
        22 => "Layout",
        23 => "Version",
        24 => "AlgorithmsDiffer",
        25 => "Serial",
        26 => "Time",
        27 => "EmptyIssuer",
        28 => "ExtensionRepeated",
        29 => "ExtensionValue",
        30 => "SubtreeBounds",
        31 => "SignatureBits",
        32 => "Limit",
        33 => "Memory",
        _ => "",
    }
}

fn statement_fault(number: u32) -> &'static str
    ensures { result.now ≡ statement_fault number }
{
    match number {
        41 => "Der",
        42 => "Layout",
        43 => "NotV2",
        44 => "NoNumber",
        45 => "NumberRange",
        46 => "NoNextUpdate",
        47 => "Delta",
        48 => "Scope",
        49 => "Indirect",
        50 => "CriticalUnknown",
        51 => "BadReason",
        52 => "RemoveInComplete",
        53 => "OtherIssuer",
        54 => "BadSignature",
        55 => "NotSuccessful",
        56 => "ResponseType",
        57 => "NoSigner",
        58 => "NothingForIssuer",
        59 => "TooManySingles",
        60 => "Memory",
        _ => "",
    }
}

/// Why a path is invalid, by rank.
fn rank_name(number: u32) -> &'static str
    ensures { result.now ≡ rank_name number }
{
    match number {
        1 => "Repeated",
        2 => "Signature",
        3 => "NotYet",
        4 => "Expired",
        5 => "Issuer",
        6 => "NotPermitted",
        7 => "Excluded",
        8 => "ConstraintForm",
        9 => "NotCa",
        10 => "PathLength",
        11 => "KeyCertSign",
        12 => "Policy",
        13 => "CriticalUnknown",
        14 => "Purpose",
        15 => "Empty",
        16 => "TooLong",
        17 => "NoValidPolicy",
        18 => "AnyPolicyMapped",
        19 => "NoUserPolicy",
        _ => "",
    }
}

/// Why a certificate is revoked (RFC 5280, 5.3.1).
fn revocation_name(number: u32) -> &'static str
    ensures { result.now ≡ revocation_name number }
{
    match number {
        0 => "unspecified",
        1 => "keyCompromise",
        2 => "cACompromise",
        3 => "affiliationChanged",
        4 => "superseded",
        5 => "cessationOfOperation",
        6 => "certificateHold",
        8 => "removeFromCRL",
        9 => "privilegeWithdrawn",
        10 => "aACompromise",
        _ => "",
    }
}

/// The name of a fault, or of a rule of DER; empty if none has the number.
fn fault_name(number: u32) -> &'static str
    ensures named { result.now ≡ numbered_fault_name number }
    ensures of_faults { NamesAreOfFaults }
{
    match number {
        0..=20 => der_or_name_fault(number),
        21..=40 => certificate_fault(number),
        _ => statement_fault(number),
    }
}

/// The name of the reason of a verdict; empty if it has none.
fn reason_name(verdict: u32, reason: u32) -> &'static str
    ensures named { result.now ≡ verdict_reason verdict reason }
    ensures of_ranks { NamesAreOfRanks }
{
    match verdict {
        INVALID => rank_name(reason),
        REVOKED => revocation_name(reason),
        _ => "",
    }
}

/// Writes the name and a zero, if there is room for both, and answers how many octets the name has.
fn write_name(name: &str, room: &mut [u8]) -> usize
    ensures written { room.new ≡ written_over name.now room.old }
    ensures length { result ≡ length name.now }
{
    let octets = name.as_bytes();
    let count = octets.len();
    if count < room.len() {
        room[..count].copy_from_slice(octets);
        room[count] = 0;
    }
    count
}

/// Writes the name of a fault, or of the rule of DER that a `der_fault` is, and a zero behind it, if there is room for both. The answer is
/// how many octets the name has; if no fault has the number, it is 0, and the name is empty.
#[unsafe(no_mangle)]
pub extern "C" fn x509check_fault_name(fault: u32, name: &mut [u8]) -> usize
    ensures written { name.new ≡ written_over (numbered_fault_name fault) name.old }
    ensures length { result ≡ length (numbered_fault_name fault) }
    ensures of_faults { NamesAreOfFaults }
{
    write_name(fault_name(fault), name)
}

/// The same of a reason: if the verdict is 2, invalid, of the rank, and if it is 3, revoked, of the reason for which a certificate is
/// revoked (RFC 5280, 5.3.1).
#[unsafe(no_mangle)]
pub extern "C" fn x509check_reason_name(verdict: u32, reason: u32, name: &mut [u8]) -> usize
    ensures written { name.new ≡ written_over (verdict_reason verdict reason) name.old }
    ensures length { result ≡ length (verdict_reason verdict reason) }
    ensures of_ranks { NamesAreOfRanks }
{
    write_name(reason_name(verdict, reason), name)
}
