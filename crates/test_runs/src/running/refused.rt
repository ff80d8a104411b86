//! Octets that are no certificate, and what `show` says of them behind the file's name: places counted by the script that made the octets.

/// The plain certificate with another component: in words which one it is, the component, its octets.
pub const REFUSED: &str = "
> a version that is v1: version A003020100
refused 23 Version at 6
> a version that is v4: version A003020103
refused 23 Version at 6
> a negative version: version A0030201FF
refused 23 Version at 6
> a version of two octets: version A00402020100
refused 23 Version at 6
> a version that is no INTEGER: version A0020500
refused 22 Layout at 6
> nothing in the tag of the version: version A000
refused 22 Layout at 6
> a value behind the version: version A0050201020500
refused 22 Layout at 9
> a version that is refused, and a value behind it: version A0050201000500
refused 23 Version at 6
> a NULL for the serial number: serial 0500
refused 22 Layout at 9
> a serial number of 33 octets: serial 022101000000000000000000000000000000000000000000000000000000\
0000000000
refused 25 Serial at 10
> a NULL for the algorithm: algorithm 0500
refused 22 Layout at 12
> an algorithm of no value: algorithm 3000
refused 22 Layout at 14
> an algorithm of three values: algorithm 300806022A0305000500
refused 22 Layout at 20
> an algorithm whose type is a NULL: algorithm 30020500
refused 22 Layout at 14
> a NULL for the issuer: issuer 0500
refused 22 Layout at 18
> an empty issuer: issuer 3000
refused 27 EmptyIssuer at 18
> an RDN that is a SEQUENCE: issuer 30023000
refused 11 NameLayout at 20
> an RDN with two common names: issuer 30143112300706035504030C00300706035504031300
refused 12 RdnRepeat at 31
> an RDN out of order: issuer 30143112300706035504061300300706035504031300
refused 13 SetOrder at 31
> a PrintableString with an octet above 127: issuer 300C310A30080603550403130180
refused 14 Text at 29
> a NULL for the validity: validity 0500
refused 22 Layout at 32
> a validity without a time: validity 3000
refused 22 Layout at 34
> a month 13: validity 301E170D3236303130313030303030305A170D3235313330313030303030305A
refused 26 Time at 49
> a NULL for the subject: subject 0500
refused 22 Layout at 64
> a subject with an RDN that is a SEQUENCE: subject 30023000
refused 11 NameLayout at 66
> a NULL for the key: key 0500
refused 22 Layout at 78
> a key without an algorithm: key 30060302004B0500
refused 22 Layout at 80
> a key without a BIT STRING: key 3006300406022A03
refused 22 Layout at 86
> a key that is an OCTET STRING: key 3009300406022A0304014B
refused 22 Layout at 86
> a value behind the key: key 300C300406022A030302004B0500
refused 22 Layout at 90
> a key whose algorithm is a NULL: key 300605000302004B
refused 22 Layout at 80
> a NULL for the outer algorithm: outer 0500
refused 22 Layout at 90
> an outer algorithm with parameters: outer 300606022A030500
refused 24 AlgorithmsDiffer at 90
> an outer algorithm of no value: outer 3000
refused 24 AlgorithmsDiffer at 90
> no outer algorithm: outer -
refused 22 Layout at 90
> a signature that is an OCTET STRING: signature 040100
refused 22 Layout at 96
> no signature: signature -
refused 22 Layout at 96
> a signature with an unused bit: signature 030201EE
refused 31 SignatureBits at 96
> a signature without a count of unused bits: signature 0300
refused 6 Content at 96
> a value behind the signature: rest 0500
refused 22 Layout at 100
> an RDN without attributes: issuer 30023100
refused 11 NameLayout at 22
> an attribute with an IA5String above 127, behind another: subject 3018310A30080603550403130161310A30080603550403160180
refused 14 Text at 87
> a serial number in a tag that is not served: serial 1F0105
refused 1 TagForm at 9
> an issuer with a long length of 12: issuer 30810C310A30080603550403130141
refused 2 LengthForm at 18
> a key that is too long: key 308410000000
refused 3 TooLong at 78
> an algorithm that passes the end of the signed part: key 3081FF
refused 4 Truncated at 78
> an outer algorithm 33 deep: outer 303E303C303A30383036303430323030302E302C302A3028302630243022302\
0301E301C301A30183016301430123010300E300C300A30083006300430023000
refused 5 TooDeep at 153
> a serial number with a zero too many: serial 02020005
refused 6 Content at 9
";

/// The same of what stands behind the key.
pub const REFUSED_TAILS: &str = "
> unique identifiers out of order: tail 820100810100
refused 22 Layout at 93
> a NULL behind the key: tail 0500
refused 22 Layout at 90
> nothing in the tag of the extensions: tail A300
refused 22 Layout at 92
> a SET of extensions: tail A3023100
refused 22 Layout at 92
> no extension: tail A3023000
refused 22 Layout at 94
> a value behind the extensions: tail A30F300B30090603551D23040205000500
refused 22 Layout at 105
> a value behind the tag of the extensions: tail A30B300930070603551D2304000500
refused 22 Layout at 103
> an extension that is a NULL: tail A30430020500
refused 22 Layout at 94
> an extension that is not critical, and says so: tail A30E300C300A0603551D230101000400
refused 22 Layout at 101
> an extension without a value: tail A309300730050603551D23
refused 22 Layout at 101
> a repeated type: tail A314301230070603551D23040030070603551D230400
refused 28 ExtensionRepeated at 103
> a repeated type with a value that is refused: tail A318301630090603551D130402300030090603551D1304020500
refused 28 ExtensionRepeated at 105
> an extension that is refused before one of a repeated type: tail A318301630090603551D130402050030090603551D1304023000
refused 29 ExtensionValue at 103
> basicConstraints that are not DER: tail A30D300B30090603551D1304023001
refused 4 Truncated at 103
> basicConstraints with an explicit FALSE: tail A310300E300C0603551D1304053003010100
refused 29 ExtensionValue at 105
> keyUsage that is a NULL: tail A30D300B30090603551D0F04020500
refused 29 ExtensionValue at 103
> keyUsage without a count of unused bits: tail A30D300B30090603551D0F04020300
refused 6 Content at 103
> subjectAltName with an empty label: tail A3133011300F0603551D11040830068204612E2E62
refused 15 DnsForm at 105
> subjectAltName with an address of 5 octets: tail A314301230100603551D110409300787050A00000001
refused 16 IpForm at 105
> subjectAltName without a name: tail A30D300B30090603551D1104023000
refused 29 ExtensionValue at 105
> nameConstraints with a minimum: tail A316301430120603551D1E040B3009A00730058200800100
refused 30 SubtreeBounds at 111
> nameConstraints with a mask of 255.0.255.0: tail A31B301930170603551D1E0410300EA00C300A87080A000000FF00FF00
refused 17 MaskForm at 109
> extKeyUsage without a purpose: tail A30D300B30090603551D2504023000
refused 29 ExtensionValue at 105
> basicConstraints with a tag that is not served: tail A30E300C300A0603551D1304031F8100
refused 1 TagForm at 103
> basicConstraints of indefinite length: tail A30F300D300B0603551D13040430800000
refused 2 LengthForm at 103
> basicConstraints that are too long: tail A311300F300D0603551D1304063084FFFFFFFF
refused 3 TooLong at 103
> basicConstraints 33 deep: tail A34D304B30490603551D1304423040303E303C303A30383036303430323030302E\
302C302A30283026302430223020301E301C301A30183016301430123010300E300C300A30083006300430023000
refused 5 TooDeep at 169
> basicConstraints with a BOOLEAN of two octets: tail A311300F300D0603551D130406300401020000
refused 6 Content at 105
> basicConstraints with octets behind them: tail A30F300D300B0603551D13040430000000
refused 7 Trailing at 105
> basicConstraints of no octets: tail A30B300930070603551D130400
refused 4 Truncated at 103
> basicConstraints with a negative path length: tail A3133011300F0603551D13040830060101FF0201FF
refused 29 ExtensionValue at 108
> a base of a DNS constraint with two dots: tail A316301430120603551D1E040B3009A007300582032E2E61
refused 15 DnsForm at 109
> a base of an IP constraint of 4 octets: tail A317301530130603551D1E040C300AA108300687040A000000
refused 16 IpForm at 109
> a maximum of a subtree: tail A316301430120603551D1E040B3009A10730058200810101
refused 30 SubtreeBounds at 111
";

/// Whole texts that are no certificates.
pub const NO_CERTIFICATES: &str = "
> octet 95 as 04: 30623056A003020102020105300406022A03300C310A30080603550403130141301E170D323530313\
0313030303030305A170D3236303130313030303030305A300C310A30080603550403130154300A300406022A030302004B\
300406022A04030200EE
refused 24 AlgorithmsDiffer at 90
> octet 98 as 01: 30623056A003020102020105300406022A03300C310A30080603550403130141301E170D323530313\
0313030303030305A170D3236303130313030303030305A300C310A30080603550403130154300A300406022A030302004B\
300406022A03030201EE
refused 31 SignatureBits at 96
> a month 13: 30623056A003020102020105300406022A03300C310A30080603550403130141301E170D3235313330313\
030303030305A170D3236303130313030303030305A300C310A30080603550403130154300A300406022A030302004B3004\
06022A03030200EE
refused 26 Time at 34
> the last octet missing: 30623056A003020102020105300406022A03300C310A30080603550403130141301E170D3\
235303130313030303030305A170D3236303130313030303030305A300C310A30080603550403130154300A300406022A03\
0302004B300406022A03030200
refused 4 Truncated at 0
> an octet behind: 30623056A003020102020105300406022A03300C310A30080603550403130141301E170D32353031\
30313030303030305A170D3236303130313030303030305A300C310A30080603550403130154300A300406022A030302004\
B300406022A03030200EE00
refused 7 Trailing at 100
> no octets:
refused 4 Truncated at 0
> a NULL: 0500
refused 22 Layout at 0
> a SEQUENCE of nothing: 3000
refused 22 Layout at 2
> 33 levels: 3040303E303C303A30383036303430323030302E302C302A30283026302430223020301E301C301A301830\
16301430123010300E300C300A30083006300430023000
refused 5 TooDeep at 64
> 2^24 octets: 308401000000
refused 4 Truncated at 0
> a v2 certificate with extensions: 30713065A003020101020105300406022A03300C310A3008060355040313014\
1301E170D3235303130313030303030305A170D3236303130313030303030305A300C310A30080603550403130154300A30\
0406022A030302004BA30D300B30090603551D1304023000300406022A03030200EE
refused 23 Version at 90
> a v1 certificate with extensions: 306C3060020105300406022A03300C310A30080603550403130141301E170D3\
235303130313030303030305A170D3236303130313030303030305A300C310A30080603550403130154300A300406022A03\
0302004BA30D300B30090603551D1304023000300406022A03030200EE
refused 23 Version at 85
> issuerUniqueID in v1: 30603054020105300406022A03300C310A30080603550403130141301E170D3235303130313\
030303030305A170D3236303130313030303030305A300C310A30080603550403130154300A300406022A030302004B8101\
00300406022A03030200EE
refused 23 Version at 85
";
