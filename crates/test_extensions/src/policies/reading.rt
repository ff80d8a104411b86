//! What the extensions about policies are read as.

use crate::building::{RowFault, SIGNATURE, certificate, joined, told, value};
use asn::Oid;
use cert::{CertFault, Certificate};
use cert_policies::{PolicyExtensions, policy_layout_laws};
use path_policies::{
    PolicyOutcome, PolicyQuery, policy_certificates, policy_outcome_laws, process_policies,
};
use std::alloc::Global;
use std::fmt::Write;
use std::test::Fail;

/// One extension a line: the contents of its OCTET STRING; `P` for certificatePolicies, `M` for policyMappings, `C` for policyConstraints or
/// `I` for inhibitAnyPolicy; what is read, or the fault and its offset in these contents; and why. Written by hand from X.690 (8.1.3, 8.3.2,
/// 8.19) and RFC 5280 (4.2.1.4, 4.2.1.5, 4.2.1.11, 4.2.1.14). 2A03 is 1.2.3, and 551D2000 is anyPolicy.
const ROWS: &str = "
3006300406022A03 ; P ; 2A03 ; one policy
300E300406022A0330060604551D2000 ; P ; 2A03 551D2000 ; two, one of them anyPolicy
300A3008060667810C010201 ; P ; 67810C010201 ; an arc of two octets
3017301506022A03300F300D06082B06010505070201160161 ; P ; 2A03 ; with a qualifier, id-qt-cps
3008300606022A033000 ; P ; 2A03 ; qualifiers are not looked into, not even an empty SEQUENCE of them
300C300406022A04300406022A03 ; P ; 2A04 2A03 ; in the order of the list and not of the octets
3000 ; P ; ExtensionValue 2 ; SIZE (1..MAX): none, at the end of the SEQUENCE
300C300406022A03300406022A03 ; P ; ExtensionValue 8 ; stated twice, at the second PolicyInformation
3012300406022A03300406022A04300406022A03 ; P ; ExtensionValue 14 ; stated twice, with another between
3106300406022A03 ; P ; ExtensionValue 0 ; a SET
300406022A03 ; P ; ExtensionValue 2 ; an OBJECT IDENTIFIER in place of a PolicyInformation
30023000 ; P ; ExtensionValue 4 ; a PolicyInformation without a policy, at its end
30053003020105 ; P ; ExtensionValue 4 ; an INTEGER in place of the policy
3008300606022A030500 ; P ; ExtensionValue 8 ; NULL in place of the qualifiers
300A300806022A0330003000 ; P ; ExtensionValue 10 ; a value behind the qualifiers
3006300406022A80 ; P ; Der(Content) 4 ; the last octet of an OBJECT IDENTIFIER has bit 8 set
3006300406022A ; P ; Der(Truncated) 0 ; an octet is missing: the outermost value is cut short
3006300406022A0300 ; P ; Der(Trailing) 8 ; an octet behind the value
; P ; Der(Truncated) 0 ; no contents
300A300806022A0306022A04 ; M ; 2A03>2A04 ; one mapping
3014300806022A0306022A04300806022A0406022A03 ; M ; 2A03>2A04 2A04>2A03 ; two, there and back
3014300806022A0306022A04300806022A0306022A04 ; M ; 2A03>2A04 2A03>2A04 ; repeated, which no rule forbids
300C300A0604551D200006022A03 ; M ; 551D2000>2A03 ; anyPolicy is a condition on paths, not of reading
3000 ; M ; ExtensionValue 2 ; none
3006300406022A03 ; M ; ExtensionValue 8 ; no policy of the subject's domain
300E300C06022A0306022A0406022A05 ; M ; ExtensionValue 12 ; three policies, at the third
3003800100 ; C ; 0 / - ; requireExplicitPolicy alone
3003810105 ; C ; - / 5 ; inhibitPolicyMapping alone
3006800101810102 ; C ; 1 / 2 ; both
3006810102800101 ; C ; ExtensionValue 5 ; the wrong way round: requireExplicitPolicy is left over
3006800101800101 ; C ; ExtensionValue 5 ; requireExplicitPolicy twice
3000 ; C ; ExtensionValue 2 ; neither (4.2.1.11: not an empty sequence)
3003800180 ; C ; ExtensionValue 2 ; -128
30048002007F ; C ; ExtensionValue 2 ; nine bits of zero: 127 in two octets
300480020080 ; C ; 128 / - ; 128 needs two octets
30048002FF80 ; C ; ExtensionValue 2 ; nine bits of one
3006800101810200 ; C ; Der(Truncated) 5 ; the second number passes the end
3007800101810200 ; C ; Der(Truncated) 0 ; the SEQUENCE itself does
300780010181020001 ; C ; ExtensionValue 5 ; the second number is padded
30028000 ; C ; ExtensionValue 2 ; a number of no octets
30058001018200 ; C ; ExtensionValue 5 ; a value behind them
3007800500FFFFFFFF ; C ; 4294967295 / - ; the greatest of 32 bits
300780050100000000 ; C ; 4294967295 / - ; one more than it
30068004FFFFFFFF ; C ; ExtensionValue 2 ; -1 in four octets, padded
300680047FFFFFFF ; C ; 2147483647 / - ; below it
3003020101 ; C ; ExtensionValue 2 ; INTEGER without the tag
3005A003020101 ; C ; ExtensionValue 2 ; an explicit tag
020100 ; I ; 0
02017F ; I ; 127
02020080 ; I ; 128
020180 ; I ; ExtensionValue 0 ; -128
0202007F ; I ; Der(Content) 0 ; padded, which DER refuses under the universal tag
0200 ; I ; Der(Content) 0 ; no octets
02050100000000 ; I ; 4294967295 ; saturated
0A0100 ; I ; ExtensionValue 0 ; an ENUMERATED
3003020100 ; I ; ExtensionValue 0 ; a SEQUENCE round it
02010002 ; I ; Der(Trailing) 3 ; an octet behind it
";

/// What a row has, and what it wants.
#[derive(Clone, Copy)]
struct Row<'t> {
    contents: &'t str,
    kind: &'t str,
    wanted: &'t str,
}

fn row_of(row: &str) -> Row<'_> {
    let mut parts = row.split(';').map(str::trim);
    Row {
        contents: parts.next().unwrap_or(""),
        kind: parts.next().unwrap_or(""),
        wanted: parts.next().unwrap_or(""),
    }
}

/// The last number of the type of an extension, under id-ce.
fn type_number(kind: &str) -> u8 {
    match kind {
        "P" => 32,
        "M" => 33,
        "C" => 36,
        _ => 54,
    }
}

/// An extension of the type with this number under id-ce.
fn extension(alloc: Global, number: u8, contents: &[u8]) -> Result<Vec<u8>, RowFault> {
    let oid = value(alloc, 0x06, &[0x55, 0x1D, number])?;
    let octet_string = value(alloc, 0x04, contents)?;
    value(alloc, 0x30, &joined(alloc, &[&oid, &octet_string])?)
}

fn push_policy(alloc: Global, text: &mut String, policy: Oid<'_>) -> Result<(), RowFault> {
    for octet in policy.contents() {
        text.push_str(&format!(in alloc; "{octet:02X}")?)?;
    }
    Ok(())
}

fn push_policies(
    alloc: Global,
    text: &mut String,
    policies: &Option<Vec<Oid<'_>>>,
) -> Result<(), RowFault> {
    let Some(policies) = policies else {
        return Ok(text.push('-')?);
    };
    for (index, policy) in policies.iter().enumerate() {
        if index > 0 {
            text.push(' ')?;
        }
        push_policy(alloc, text, *policy)?;
    }
    Ok(())
}

fn push_number(alloc: Global, text: &mut String, number: Option<u32>) -> Result<(), RowFault> {
    match number {
        None => text.push('-')?,
        Some(number) => text.push_str(&format!(in alloc; "{number}")?)?,
    }
    Ok(())
}

/// What an extension of the kind says, as a row has it.
fn said(alloc: Global, kind: &str, read: &PolicyExtensions<'_>) -> Result<String, RowFault> {
    let mut text = format!(in alloc; "")?;
    match kind {
        "P" => push_policies(alloc, &mut text, &read.policies)?,
        "M" => {
            for (index, mapping) in read.mappings.iter().enumerate() {
                if index > 0 {
                    text.push(' ')?;
                }
                push_policy(alloc, &mut text, mapping.issuer_domain_policy)?;
                text.push('>')?;
                push_policy(alloc, &mut text, mapping.subject_domain_policy)?;
            }
        }
        "C" => {
            push_number(alloc, &mut text, read.require_explicit_policy)?;
            text.push_str(" / ")?;
            push_number(alloc, &mut text, read.inhibit_policy_mapping)?;
        }
        _ => push_number(alloc, &mut text, read.inhibit_any_policy)?,
    }
    Ok(text)
}

/// What is read of a certificate with two extensions, of which the second is the row's.
fn read_of(alloc: Global, row: &Row<'_>) -> Result<String, RowFault> {
    let contents = hex::decode(alloc, row.contents).map_err(|_| RowFault::Word)?;
    let other = extension(alloc, 14, b"\x04\x01K")?;
    let own = extension(alloc, type_number(row.kind), &contents)?;
    let octets = certificate(alloc, Some(&joined(alloc, &[&other, &own])?))?;
    let before = octets
        .len()
        .saturating_sub(SIGNATURE.len() + contents.len());
    let certificate = Certificate::read(alloc, &octets).map_err(|_| RowFault::Word)?;
    match PolicyExtensions::read(alloc, &certificate) {
        Ok(read) => said(alloc, row.kind, &read),
        Err(fault) => told(alloc, fault, before),
    }
}

#[test]
fn each_extension_is_read(rt: HostRuntime) -> Result<(), Fail> {
    for line in ROWS.lines().filter(|line| line.contains(';')) {
        let row = row_of(line);
        let read = read_of(rt.alloc(), &row).map_err(|_| "a certificate")?;
        assert_eq!(rt; read.as_str(), row.wanted, "{line}");
    }
    policy_layout_laws();
    policy_outcome_laws();
    Ok(())
}

#[test]
fn all_four_are_read_in_any_order(rt: HostRuntime) -> Result<(), Fail> {
    let alloc = rt.alloc();
    let any = extension(alloc, 54, &[0x02, 0x01, 0x03]).map_err(|_| "an extension")?;
    let constraints = extension(alloc, 36, b"\x30\x06\x80\x01\x01\x81\x01\x02").map_err(
        |_| "an extension",
    )?;
    let mappings = extension(
        alloc,
        33,
        b"\x30\x0A\x30\x08\x06\x02\x2A\x03\x06\x02\x2A\x04",
    )
    .map_err(|_| "an extension")?;
    let policies = extension(alloc, 32, b"\x30\x06\x30\x04\x06\x02\x2A\x03").map_err(
        |_| "an extension",
    )?;
    let all = joined(alloc, &[&any, &constraints, &mappings, &policies]).map_err(|_| "extensions")?;
    let octets = certificate(alloc, Some(&all)).map_err(|_| "a certificate")?;
    let certificate = Certificate::read(alloc, &octets).map_err(|_| "a certificate")?;
    let read = PolicyExtensions::read(alloc, &certificate).map_err(|_| "extensions")?;
    assert_eq!(rt;
        read.policies.as_ref().map(|policies| policies.len()),
        Some(1)
    );
    assert_eq!(rt; read.mappings.len(), 1);
    assert_eq!(rt; read.require_explicit_policy, Some(1));
    assert_eq!(rt; read.inhibit_policy_mapping, Some(2));
    assert_eq!(rt; read.inhibit_any_policy, Some(3));
    Ok(())
}

#[test]
fn policies_of_certificates_that_were_read(rt: HostRuntime) -> Result<(), Fail> {
    let alloc = rt.alloc();
    let policies = extension(alloc, 32, b"\x30\x06\x30\x04\x06\x02\x2A\x03");
    let policies = policies.map_err(|_| "an extension")?;
    let octets = certificate(alloc, Some(&policies)).map_err(|_| "a certificate")?;
    let path = [Certificate::read(alloc, &octets).map_err(|_| "a certificate")?];
    let certificates = policy_certificates(alloc, &path).map_err(|_| "its policies")?;
    assert_eq!(rt; certificates.len(), 1);
    let query = PolicyQuery {
        certificates: &certificates,
        initial_policies: &[Oid::new(&[0x2A, 0x03])],
        inhibit_policy_mapping: false,
        require_explicit_policy: true,
        inhibit_any_policy: false,
    };
    let outcome = process_policies(alloc, &query).map_err(|_| "an outcome")?;
    let PolicyOutcome::Good(sets) = outcome else {
        return Err("a good outcome".into());
    };
    assert_eq!(rt; sets.user_constrained.len(), 1);
    assert!(rt; sets.user_constrained[0].is(&[0x2A, 0x03]));
    Ok(())
}

/// Which of two certificates has malformed policies, and the fault.
fn refused_of(
    alloc: Global,
    first: &[u8],
    second: &[u8],
) -> Result<Option<(usize, CertFault)>, RowFault> {
    let mut path = Vec::new(alloc);
    for octets in [first, second] {
        path.push(Certificate::read(alloc, octets).map_err(|_| RowFault::Word)?)?;
    }
    Ok(policy_certificates(alloc, &path).err())
}

#[test]
fn the_first_certificate_with_malformed_policies_is_told(rt: HostRuntime) -> Result<(), Fail> {
    let alloc = rt.alloc();
    let good = extension(alloc, 32, b"\x30\x06\x30\x04\x06\x02\x2A\x03").map_err(
        |_| "an extension",
    )?;
    let good = certificate(alloc, Some(&good)).map_err(|_| "a certificate")?;
    let bad = extension(alloc, 32, b"\x30\x00").map_err(|_| "an extension")?;
    let bad = certificate(alloc, Some(&bad)).map_err(|_| "a certificate")?;
    let refused = refused_of(rt.alloc(), &good, &bad).map_err(|_| "certificates")?;
    let names = refused.map(|(place, fault)| (place, fault.name()));
    assert_eq!(rt; names, Some((1, "ExtensionValue")));
    Ok(())
}
