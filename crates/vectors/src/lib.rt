//! Certificates and revocation lists for tests, from texts in a small notation, under a signature that needs no secret, with the verifier of
//! such signatures; and the same with the points at which lists about certificates are published (RFC 5280, 4.2.1.13 and 5.2.5).
//!
//! # The notation of certificates
//!
//!     ca(R,R)
//!     ee(T,R){dns a.example}{until 270101000000Z}
//!
//! `ca(S,I)` is a certificate of version 3 with subject S and issuer I, key S, signed under key I, with serial number `05`, from
//! 2025-01-01T00:00:00Z until 2026-01-01T00:00:00Z, and critical basicConstraints with cA. `ee(S,I)` is the same without extensions.
//!
//! A name X is one RDN with one attribute, 2.5.4.3 as the PrintableString X. A key X is a subjectPublicKeyInfo with the octets of X. Every
//! algorithm identifier is 1.2.3 without parameters, and times are UTCTimes. S and I are one or more characters of ASCII; S ends at the
//! first comma, I at the first closing parenthesis. The signature is the SHA-256 of the signing key's subjectPublicKeyInfo, whole, and the
//! signed part behind it.
//!
//! Options follow, in any number and order, each in braces. Of several of one kind the last one holds, except for those that collect.
//!
//! | Option | Says |
//! |---|---|
//! | `{key X}`, `{signed X}` | the key; the key that signs |
//! | `{serial HEX}` | the contents of the serial number |
//! | `{from YYMMDDHHMMSSZ}`, `{until YYMMDDHHMMSSZ}` | notBefore and notAfter: 12 digits and `Z`, of a date or of none |
//! | `{version N}` | 1, 2 or 3; 1 without the component |
//! | `{empty}` | the subject has no RDN |
//! | `{usage HEX}` | keyUsage: the contents of the BIT STRING, with the count of unused bits |
//! | `{dns V}`, `{uri V}`, `{ip HEX}`, `{dir X}` | a name in subjectAltName; collect |
//! | `{pathlen N}` | the path length in basicConstraints, in decimal, up to 4294967295; of `ee` in basicConstraints without cA |
//! | `{permit FORM V}`, `{exclude FORM V}` | a permitted or excluded subtree in nameConstraints, which are critical; FORM is `dns`, `uri`, `ip` or `dir`, V as above; collect |
//! | `{purpose DOTTED}` | a purpose in extKeyUsage; collect |
//! | `{policy}`, `{policy-not-critical}` | policyConstraints, critical or not, with value `3000` |
//! | `{nocheck}` | id-pkix-ocsp-nocheck with value `0500` |
//! | `{critical DOTTED}` | a critical extension of this type with value `0500`; collect |
//!
//! Extensions stand in the order keyUsage, subjectAltName, basicConstraints, nameConstraints, extKeyUsage, policyConstraints, nocheck, and
//! then the critical ones as they come. Those without the word are not critical. Values are one or more characters of ASCII up to the
//! closing brace; hexadecimal is two digits an octet, and may be of no octets. Whether a certificate may have what the text says is not
//! looked at, so that tests can ask for what has to be refused.
//!
//! Another text is refused at an offset: where a mark is missing, at the end of the part in which it should stand; else at the beginning
//! of the word or value that is wrong. A text for which there is no DER, as a serial number of no octets, is `NotSpellable`.
//!
//! # The notation of revocation lists
//!
//!     crl(R,5)
//!     crl(R,7,[05 1][06]){scope user}{signed X}
//!
//! `crl(I,N)` is a list of version 2 of issuer I, signed under key I, with cRLNumber N, in decimal up to 4294967295, thisUpdate
//! 2025-06-01T00:00:00Z, nextUpdate 2025-07-01T00:00:00Z and no entries: without the component. Names, keys, algorithms, times and the
//! signature are those of certificates. `crl(I,N,ENTRIES)` has entries, each in brackets, one after the other: `[SERIAL]` or
//! `[SERIAL REASON]`, the contents of the serial number in hexadecimal and the number of reasonCode in decimal, which stands where it is
//! named. The revocationDate is 2025-05-20T00:00:00Z.
//!
//! | Option | Says |
//! |---|---|
//! | `{signed X}` | the key that signs |
//! | `{this YYMMDDHHMMSSZ}`, `{next YYMMDDHHMMSSZ}` | thisUpdate and nextUpdate: 12 digits and `Z`, of a date or of none |
//! | `{number HEX}` | the contents of cRLNumber's INTEGER, in place of N |
//! | `{scope user}`, `{scope ca}` | a critical issuingDistributionPoint with onlyContainsUserCerts or onlyContainsCACerts, behind the cRLNumber |
//!
//! Of several options of one kind the last one holds. Other texts are refused as those of certificates are.
#![tactic(auto)]

mod building;
mod extension_list;
mod fault;
mod list_building;
mod list_notation;
mod notation;
mod part;
mod parts;
mod published;
mod toy_verifier;

pub use building::{certificate, sign, tree_of};
pub use fault::NotationFault;
pub use list_building::{revocation_list, revocation_list_tree};
pub use part::NotationPart;
pub use parts::{algorithm_tree, bit_string, key_info, name, name_tree, primitive};
pub use published::{CRL_ISSUER, KEY_COMPROMISE, ListText, certificate_at, list_at};
pub use toy_verifier::{ToyVerifier, toy_signature};
