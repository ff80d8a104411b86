//! Rows by hand.

/// One value a line: the contents of the OCTET STRING of an issuingDistributionPoint; what a list with it is read as in the stated profile,
/// and in the wide one; and why. A list that is read has its scope, and the names of its point; `-` is the fault `Scope` at the extension.
/// The first lines are what OpenSSL 3.0.19 wrote; the others were written by hand from RFC 5280 (5.2.5) and X.690 (8.1.3, 11.1, 11.5).
pub const ROWS: &str = "
3010A00EA00C860A687474703A2F2F612F63 ; - ; all 860A687474703A2F2F612F63 ; OpenSSL: fullname of one URI
301CA01AA018860A687474703A2F2F612F63860A6C6461703A2F2F622F64 ; - ; all 860A687474703A2F2F612F63 860A6C6461703A2F2F622F64 ; OpenSSL: fullname of two URIs
3013A00EA00C860A687474703A2F2F612F638101FF ; - ; user 860A687474703A2F2F612F63 ; OpenSSL: fullname, onlyuser
3013A00EA00C860A687474703A2F2F612F638201FF ; - ; ca 860A687474703A2F2F612F63 ; OpenSSL: fullname, onlyCA
3014A012A010A40E300C310A300806035504030C0178 ; - ; all A40E300C310A300806035504030C0178 ; OpenSSL: fullname of a directoryName
30038101FF ; user ; user ; OpenSSL: onlyuser
30038201FF ; ca ; ca ; OpenSSL: onlyCA
3000 ; - ; - ; OpenSSL: onlyuser=FALSE, an empty SEQUENCE
30038501FF ; - ; - ; OpenSSL: onlyAA
3013A00EA00C860A687474703A2F2F612F638501FF ; - ; - ; OpenSSL: fullname, onlyAA
3013A00EA00C860A687474703A2F2F612F638401FF ; - ; - ; OpenSSL: fullname, indirectCRL
3014A00EA00C860A687474703A2F2F612F6383020560 ; - ; - ; OpenSSL: fullname, onlysomereasons of keyCompromise, CACompromise
3016A00EA00C860A687474703A2F2F612F638101FF8201FF ; - ; - ; OpenSSL: fullname, onlyuser, onlyCA
300EA00CA10A300806035504030C0178 ; - ; - ; OpenSSL: relativename
300AA008A006860162860161 ; - ; all 860162 860161 ; in the order of the list and not of the octets
300AA008A006860161860161 ; - ; all 860161 860161 ; one name twice
300AA005A003860161810100 ; - ; - ; DEFAULT FALSE spelled out
300AA005A003860161820100 ; - ; - ; DEFAULT FALSE of the other flag
300AA005A003860161840100 ; - ; - ; DEFAULT FALSE of indirectCRL
3003810100 ; - ; - ; DEFAULT FALSE alone
300AA005A003860161810101 ; - ; - ; TRUE as another octet than FF
300AA005A0038601610101FF ; - ; - ; a BOOLEAN without the tag of the flag
3009A005A0038601618100 ; - ; - ; a flag of no octets
300BA005A0038601618102FFFF ; - ; - ; a flag of two octets
30068101FF8201FF ; - ; - ; both flags, and no name
300D8101FFA005A003860161 ; - ; - ; the name behind the flag
300EA005A003860161A005A003860162 ; - ; - ; two names of the point
300AA005A0038601618601FF ; - ; - ; a value with the tag of no field
300DA005A0038601618101FF8401FF ; - ; - ; a flag, and indirectCRL
3006840100810100 ; - ; - ; no name, and flags that are FALSE
3107A005A003860161 ; - ; - ; a SET
3004A002A000 ; - ; - ; SIZE (1..MAX): no full names
3002A000 ; - ; - ; no choice in the tag
3005A003800161 ; - ; - ; a primitive value in place of the choice
3005A003860161 ; - ; - ; general names without the tag of the choice
3007A005A003820120 ; - ; - ; a dNSName that is a space
A005A003860161 ; - ; - ; the name of the point without the SEQUENCE
3007A005A00386016100 ; - ; - ; an octet behind the value
3007A005A0038601 ; - ; - ; an octet is missing
308107A005A003860161 ; - ; - ; a length in the long form that has a short one
3081038101FF ; - ; - ; the same of a flag alone
30803007A005A0038601610000 ; - ; - ; a length that is not given
 ; - ; - ; no contents
";
