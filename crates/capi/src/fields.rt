//! The fields of a certificate as numbers and parts of the text.

use capi_values::Part;
use cert::{BasicConstraints, Certificate, Extensions, KeyUsage};

/// What the extensions of a certificate say, as numbers. Of lists it has the numbers of items.
#[derive(Clone, Copy, Debug, PartialEq, Eq, Default)]
#[repr(C)]
pub struct ExtensionFields {
    pub has_basic_constraints: bool,
    pub is_authority: bool,
    pub has_path_length: bool,
    pub has_key_usage: bool,
    pub needs_policy_processing: bool,
    pub no_check: bool,
    pub path_length: u32,
    /// Bit n is bit n of the key usage, of the nine that have names.
    pub key_usage: u32,
    pub alternative_names: usize,
    pub permitted_subtrees: usize,
    pub excluded_subtrees: usize,
    pub purposes: usize,
    pub unrecognised: usize,
}

/// The fields of a certificate.
#[derive(Clone, Copy, Debug, PartialEq, Eq, Default)]
#[repr(C)]
pub struct Fields {
    pub version: u32,
    pub not_before: i64,
    pub not_after: i64,
    pub tbs: Part,
    pub serial: Part,
    pub algorithm: Part,
    pub issuer: Part,
    pub subject: Part,
    pub subject_public_key_info: Part,
    pub key: Part,
    pub signature: Part,
    pub extensions: ExtensionFields,
}

impl ExtensionFields {
    ghost use Rattle.std.specs.Prelude.{◌≡◌, ◌<◌, Some};
    ghost use Rattle.cert.specs.Extensions.{seen_extensions};
    ghost use Rattle.cert.specs.KeyUsage.{seen_key_usage};
    ghost use Rattle.capi.specs.Fields.{TellsExtensions, bits_below};

    /// Bit n of the number is bit n of the key usage, of the nine that have names.
    fn usage_number(usage: KeyUsage<'_>) -> u32
        ensures { result ≡ bits_below 9 (seen_key_usage usage.entry) }
    {
        let mut number = 0;
        let mut weight = 1;
        for bit in 0..9u8 {
            if usage.has(bit) {
                number += weight;
            }
            weight *= 2;
        }
        number
    }

    fn of(extensions: &Extensions<'_>) -> ExtensionFields
        ensures { TellsExtensions result (seen_extensions extensions.now) }
    {
        let constraints = extensions.basic_constraints;
        let path_length = match constraints {
            Some(read) => read.path_length,
            None => None,
        };
        ExtensionFields {
            has_basic_constraints: constraints.is_some(),
            is_authority: match constraints {
                Some(read) => read.ca,
                None => false,
            },
            has_path_length: path_length.is_some(),
            has_key_usage: extensions.key_usage.is_some(),
            needs_policy_processing: extensions.needs_policy_processing,
            no_check: extensions.no_check,
            path_length: path_length.unwrap_or(0),
            key_usage: match extensions.key_usage {
                Some(usage) => ExtensionFields::usage_number(usage),
                None => 0,
            },
            alternative_names: extensions.alternative_names.len(),
            permitted_subtrees: extensions.name_constraints.permitted.len(),
            excluded_subtrees: extensions.name_constraints.excluded.len(),
            purposes: extensions.purposes.len(),
            unrecognised: extensions.unrecognised.len(),
        }
    }
}

impl Fields {
    ghost use Rattle.cert.specs.Certificate.{seen_certificate};
    ghost use Rattle.capi.specs.Fields.{TellsComponents, AreAtComponents};

    /// The fields of the certificate, with the offsets of its components.
    pub(crate) fn of(certificate: &Certificate<'_>) -> Fields
        ensures parts { TellsComponents result (seen_certificate certificate.now) }
        ensures places { AreAtComponents result (seen_certificate certificate.now) }
    {
        let key_info = certificate.subject_public_key_info;
        Fields {
            version: u32::from(certificate.version.number()),
            not_before: certificate.validity.not_before,
            not_after: certificate.validity.not_after,
            tbs: Part::whole(certificate.tbs),
            serial: Part::contents(certificate.serial),
            algorithm: Part::whole(certificate.algorithm.value),
            issuer: Part::name(&certificate.issuer),
            subject: Part::name(&certificate.subject),
            subject_public_key_info: Part::whole(key_info.value),
            key: Part::bits(key_info.key.value),
            signature: Part::bits(certificate.signature.value),
            extensions: ExtensionFields::of(&certificate.extensions),
        }
    }
}
