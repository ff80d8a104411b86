//! Rows by hand.

/// One extension a line: the contents of its OCTET STRING; what is read, or the fault and its offset in these contents; the names under
/// which complete lists may be published; and why. Points stand between commas: `F` and the full names, `R` for a relative name, or a minus;
/// `r` and the octets of the bits of the reasons; and `i` and the names of the issuer. The first lines are what OpenSSL 3.0.19 wrote; the
/// others were written by hand from RFC 5280 (4.2.1.6, 4.2.1.13) and X.690 (8.1.3, 8.6.2, 11.2.1).
pub const ROWS: &str = "
30123010A00EA00C860A687474703A2F2F612F63 ; F 860A687474703A2F2F612F63 ; 860A687474703A2F2F612F63 ; OpenSSL: URI:http://a/c
301E301CA01AA018860A687474703A2F2F612F63860A6C6461703A2F2F622F64 ; F 860A687474703A2F2F612F63 860A6C6461703A2F2F622F64 ; 860A687474703A2F2F612F63 860A6C6461703A2F2F622F64 ; OpenSSL: fullname of two URIs
30243010A00EA00C860A687474703A2F2F612F633010A00EA00C860A687474703A2F2F622F64 ; F 860A687474703A2F2F612F63 , F 860A687474703A2F2F622F64 ; 860A687474703A2F2F612F63 860A687474703A2F2F622F64 ; OpenSSL: two points
3010300EA00CA10A300806035504030C0178 ; R ; - ; OpenSSL: relativename of one attribute
301A3018A016A114300806035504030C01783008060355040A0C0179 ; R ; - ; OpenSSL: relativename of two
30163014A00EA00C860A687474703A2F2F612F6381020560 ; F 860A687474703A2F2F612F63 r60 ; - ; OpenSSL: keyCompromise, CACompromise
30173015A00EA00C860A687474703A2F2F612F638103070080 ; F 860A687474703A2F2F612F63 r0080 ; - ; OpenSSL: AACompromise, bit 8
30243022A00EA00C860A687474703A2F2F612F63A210A40E300C310A300806035504030C0149 ; F 860A687474703A2F2F612F63 i A40E300C310A300806035504030C0149 ; - ; OpenSSL: CRLissuer
30143012A210A40E300C310A300806035504030C0149 ; - i A40E300C310A300806035504030C0149 ; - ; OpenSSL: CRLissuer alone
3006300481020640 ; ExtensionValue 2 ; ; OpenSSL: reasons alone, which no point must be
302C302AA012A010A40E300C310A300806035504030C01448102020CA210A40E300C310A300806035504030C0149 ; F A40E300C310A300806035504030C0144 r0C i A40E300C310A300806035504030C0149 ; - ; OpenSSL: all three
301A3018A016A0148203612E62870401020304810361406288022A03 ; F 8203612E62 870401020304 8103614062 88022A03 ; 8203612E62 870401020304 8103614062 88022A03 ; OpenSSL: names of four forms
303A3010A00EA00C860A687474703A2F2F612F633014A00EA00C860A687474703A2F2F622F63810206403010A00EA00C860A687474703A2F2F642F63 ; F 860A687474703A2F2F612F63 , F 860A687474703A2F2F622F63 r40 , F 860A687474703A2F2F642F63 ; 860A687474703A2F2F612F63 860A687474703A2F2F642F63 ; OpenSSL: the second of three with reasons
30123007A005A0038601613007A005A003860161 ; F 860161 , F 860161 ; 860161 860161 ; the same name in two points
300C300AA008A006860162860161 ; F 860162 860161 ; 860162 860161 ; in the order of the list and not of the octets
3019300EA00CA10A300806035504030C01783007A005A003860161 ; R , F 860161 ; 860161 ; a relative name, and a full one
30243019A005A003860161A210A40E300C310A300806035504030C01493007A005A003860162 ; F 860161 i A40E300C310A300806035504030C0149 , F 860162 ; 860162 ; lists of another issuer, and of its own
3018301681020640A210A40E300C310A300806035504030C0149 ; - r40 i A40E300C310A300806035504030C0149 ; - ; reasons and an issuer
300C300AA005A003860161810100 ; F 860161 r ; - ; reasons of no bits: a count alone
300D300BA005A00386016181020700 ; F 860161 r00 ; - ; reasons whose bits are all zero
300A3008A006A004A4023000 ; F A4023000 ; A4023000 ; a directoryName of no RDNs
3010300EA00CA00AA00806022A03A0020500 ; F A00806022A03A0020500 ; A00806022A03A0020500 ; an otherName
3010300EA005A003860161A2058203612E62 ; F 860161 i 8203612E62 ; - ; an issuer of another form than directoryName (a condition on CAs, not of reading)
3000 ; ExtensionValue 2 ; ; SIZE (1..MAX): no points, at the end of the SEQUENCE
31093007A005A003860161 ; ExtensionValue 0 ; ; a SET of points
A005A003860161 ; ExtensionValue 0 ; ; the name of a point alone
3003020101 ; ExtensionValue 2 ; ; an INTEGER in place of a point
30093107A005A003860161 ; ExtensionValue 2 ; ; a SET in place of a point
30023000 ; ExtensionValue 2 ; ; an empty point, at the point
300F3007A005A003860161300481020640 ; ExtensionValue 11 ; ; the second point of reasons alone
30043002A000 ; ExtensionValue 6 ; ; no name in the tag, at its end
30063004A002A000 ; ExtensionValue 8 ; ; SIZE (1..MAX): no full names, at their end
30073005A003800161 ; ExtensionValue 6 ; ; a primitive value in place of the choice
30093007A005A203860161 ; ExtensionValue 6 ; ; a choice of another number
30073005A003860161 ; ExtensionValue 6 ; ; general names without the tag of the choice
300E300CA00AA003860161A003860162 ; ExtensionValue 11 ; ; two choices, at the second
30053003800161 ; ExtensionValue 4 ; ; the tag of the name is primitive
300B3009A007A0053003860161 ; NameLayout 8 ; ; a SEQUENCE in the tag of full names, which is no general name
300C300AA008A006860161800161 ; NameLayout 11 ; ; the second name has the tag of otherName, and is primitive
30093007A005A003820120 ; DnsForm 8 ; ; a dNSName that is a space
300B3009A007A0058703010203 ; IpForm 8 ; ; an iPAddress of three octets
30083006A004A002A400 ; NameLayout 10 ; ; a directoryName without a name, at its end
300C300AA008A006A40430020500 ; NameLayout 12 ; ; a directoryName of a NULL
30063004A002A100 ; ExtensionValue 8 ; ; SIZE (1..MAX): a relative name of no attributes, at its end
30123010A00EA10C310A300806035504030C0178 ; ExtensionValue 8 ; ; a SET in the tag of a relative name
300D300BA009A10730050603550403 ; ExtensionValue 15 ; ; an attribute without a value, at its end
30183016A014A112300806035504030C017830060C01780C0178 ; ExtensionValue 20 ; ; the second attribute without a type
30123010A00EA10C300A06035504030C01780500 ; ExtensionValue 18 ; ; an attribute of three values
300B3009A005A0038601618100 ; ExtensionValue 11 ; ; reasons of no octets
300D300BA005A00386016181020860 ; ExtensionValue 11 ; ; eight unused bits
300C300AA005A003860161810101 ; ExtensionValue 11 ; ; an unused bit, and no bits
300D300BA005A00386016181020561 ; ExtensionValue 11 ; ; unused bits that are not zero
300D300BA005A00386016103020560 ; ExtensionValue 11 ; ; a BIT STRING without the tag of reasons
300F300DA005A003860161A10403020560 ; ExtensionValue 11 ; ; an explicit tag round the reasons
300D300B81020560A005A003860161 ; ExtensionValue 8 ; ; the name behind the reasons
30183016A210A40E300C310A300806035504030C014981020560 ; ExtensionValue 22 ; ; the reasons behind the issuer
3010300EA005A003860161A005A003860162 ; ExtensionValue 11 ; ; two names
3011300FA005A0038601618102056081020560 ; ExtensionValue 15 ; ; reasons twice
301D301BA005A003860161A210A40E300C310A300806035504030C01490500 ; ExtensionValue 29 ; ; a value behind the issuer
300E300CA005A003860161A303860161 ; ExtensionValue 11 ; ; a value with a tag of no field
300B3009A005A003860161A200 ; ExtensionValue 13 ; ; SIZE (1..MAX): no names of the issuer, at their end
300C300AA005A003860161820161 ; ExtensionValue 11 ; ; the tag of the issuer is primitive
300F300DA005A003860161A20430023100 ; NameLayout 13 ; ; a Name that is no GeneralName, as the issuer
30093007A005A00386016100 ; Der(Trailing) 11 ; ; an octet behind the value
30093007A005A0038601 ; Der(Truncated) 0 ; ; an octet is missing: the outermost value is cut short
 ; Der(Truncated) 0 ; ; no contents
30803007A005A0038601610000 ; Der(LengthForm) 0 ; ; a length that is not given
";
