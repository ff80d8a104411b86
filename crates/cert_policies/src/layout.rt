//! What the walks find, in the words of the standard.

ghost use Rattle.cert_policies.specs.CertificatePolicies.{CertificatePoliciesAreExact};
ghost use Rattle.cert_policies.specs.InhibitAnyPolicy.{InhibitAnyPolicyIsExact};
ghost use Rattle.cert_policies.specs.Offsets.{PolicyFaultIsOfValue};
ghost use Rattle.cert_policies.specs.PolicyConstraints.{PolicyConstraintsAreExact};
ghost use Rattle.cert_policies.specs.PolicyFields.{PolicyExtensionsAreByField};
ghost use Rattle.cert_policies.specs.PolicyMappings.{PolicyMappingsAreExact};

/// The contents of an OCTET STRING are read as certificatePolicies, policyMappings, policyConstraints or inhibitAnyPolicy exactly if they
/// are that. Of a certificate that was read, `PolicyExtensions::read` answers exactly what the extensions of these types say; its fault is
/// `ExtensionValue` or `Der`, with an offset that is at most the length of the certificate's octets.
pub fn policy_layout_laws()
    ensures policies { CertificatePoliciesAreExact }
    ensures mappings { PolicyMappingsAreExact }
    ensures constraints { PolicyConstraintsAreExact }
    ensures inhibit_any_policy { InhibitAnyPolicyIsExact }
    ensures by_field { PolicyExtensionsAreByField }
    ensures fault { PolicyFaultIsOfValue }
{}
