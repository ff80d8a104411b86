//! What is searched, and what is found.

/// One search a line: its name; the anchors; the bag; the target, with ` ; ` between certificates in the notation of `vectors`; and the
/// answer: the place of the anchor, a colon, and the places in the bag from the target upward, or `none`. The moment is 2025-06-15.
pub const ROWS: &str = "
# Hierarchies
the anchor issued the target | ca(R,R) | | ee(T,R) | 0 :
an authority between them | ca(R,R) | ca(A,R) | ee(T,A) | 0 : 0
two authorities, the upper one first | ca(R,R) | ca(A,R) ; ca(B,A) | ee(T,B) | 0 : 1 0
two authorities, the lower one first | ca(R,R) | ca(B,A) ; ca(A,R) | ee(T,B) | 0 : 0 1
three authorities in any order | ca(R,R) | ca(B,A) ; ca(C,B) ; ca(A,R) | ee(T,C) | 0 : 1 0 2
certificates that have nothing to do with it | ca(R,R) | ca(X,Y) ; ca(A,R) ; ca(Z,Z) ; ee(U,A) | ee(T,A) | 0 : 1
the second anchor | ca(S,S) ; ca(R,R) | ca(A,R) | ee(T,A) | 1 : 0
no anchors | | ca(A,R) | ee(T,A) | none
no issuer in sight | ca(R,R) | ca(A,R) | ee(T,B) | none
the issuer of the issuer is not in sight | ca(R,R) | ca(B,A) | ee(T,B) | none
names are matched, not compared | ca(R,R) | ca(Ab,R) | ee(T,aB){signed Ab} | 0 : 0
# Keys and signatures
a target with a wrong signature | ca(R,R) | ca(A,R) | ee(T,A){signed X} | none
an authority with a wrong signature | ca(R,R) | ca(A,R){signed X} | ee(T,A) | none
an issuer by its name alone, and the right one | ca(R,R) | ca(A,R){key A2} ; ca(A,R) | ee(T,A) | 0 : 1
an issuer by its key alone | ca(R,R) | ca(B,R){key A} | ee(T,A) | none
an anchor by its name alone, and the right one | ca(R,R){key R2} ; ca(R,R) | | ee(T,R) | 1 :
two anchors with one name and key | ca(R,R) ; ca(R,R){serial 06} | | ee(T,R) | 0 :
# Cross-certificates
an issuer under an unknown root, and under the anchor | ca(R,R) | ca(A,X) ; ca(A,R) | ee(T,A) | 0 : 1
the same, the other way round | ca(R,R) | ca(A,R) ; ca(A,X) | ee(T,A) | 0 : 0
two ways of one length: the lesser places | ca(R,R) | ca(B,R) ; ca(C,B) ; ca(C,D) ; ca(D,R) | ee(T,C) | 0 : 1 0
the same, with other places | ca(R,R) | ca(C,D) ; ca(D,R) ; ca(B,R) ; ca(C,B) | ee(T,C) | 0 : 0 1
the shorter way | ca(R,R) | ca(B,A) ; ca(A,R) ; ca(B,R) | ee(T,B) | 0 : 2
the longer way, as the shorter one has expired | ca(R,R) | ca(B,A) ; ca(A,R) ; ca(B,R){until 250601000000Z} | ee(T,B) | 0 : 0 1
places go before the anchor | ca(S,S) ; ca(R,R) | ca(A,R) ; ca(A,S) | ee(T,A) | 1 : 0
a mesh of four | ca(A,A) | ca(A,B) ; ca(B,A) ; ca(B,C) ; ca(C,B) ; ca(C,D) ; ca(D,C) ; ca(D,A) ; ca(A,D) | ee(T,C) | 0 : 3 1
a bridge | ca(P,P) | ca(P,X) ; ca(X,P) ; ca(Q,X) ; ca(X,Q) ; ca(A,Q) | ee(T,A) | 0 : 4 2 1
a bridge from the other side | ca(Q,Q) | ca(P,X) ; ca(X,P) ; ca(Q,X) ; ca(X,Q) ; ca(A,P) | ee(T,A) | 0 : 4 0 3
two that issued each other, below no anchor | ca(R,R) | ca(A,B) ; ca(B,A) | ee(T,A) | none
two that issued each other, one below the anchor | ca(R,R) | ca(A,B) ; ca(B,A) ; ca(B,R) | ee(T,A) | 0 : 0 2
a ring of three, left at its far end | ca(R,R) | ca(A,B) ; ca(B,C) ; ca(C,A) ; ca(C,R) | ee(T,A) | 0 : 0 1 3
# Renewed roots and keys (RFC 4158, 2.4.2; AddTrust, 2020; DST Root X3, 2021)
the old key signed the new one | ca(R,R) | ca(R,R){key N}{signed R} | ee(T,R){signed N} | 0 : 0
the new key signed the old one | ca(R,R){key N}{signed N} | ca(R,R){signed N} | ee(T,R) | 0 : 0
an authority with a new key, below its old one | ca(R,R) | ca(A,R) ; ca(A,A){key N} | ee(T,A){signed N} | 0 : 1 0
an expired cross-certificate beside the root | ca(U,U) | ca(I,U) ; ca(U,O){until 250530000000Z} | ee(T,I) | 0 : 0
the same, with the root in the bag too | ca(U,U) | ca(U,O){until 250530000000Z} ; ca(U,U) ; ca(I,U) | ee(T,I) | 0 : 2
the same, under the old root alone | ca(O,O) | ca(I,U) ; ca(U,O){until 250530000000Z} | ee(T,I) | none
the old root has expired, and is an anchor | ca(O,O){until 250530000000Z} | ca(I,U) ; ca(U,O) | ee(T,I) | 0 : 0 1
both are anchors, the old one first | ca(O,O){until 250530000000Z} ; ca(U,U) | ca(I,U) ; ca(U,O) | ee(T,I) | 1 : 0
the old root has expired, and is in the bag | ca(U,U) | ca(U,O) ; ca(O,O){until 250530000000Z} ; ca(I,U) | ee(T,I) | 0 : 2
an expired authority, and the renewed one | ca(R,R) | ca(A,R){until 250601000000Z} ; ca(A,R){serial 06} | ee(T,A) | 0 : 1
an authority of tomorrow, and that of today | ca(R,R) | ca(A,R){from 250701000000Z} ; ca(A,R){serial 06} | ee(T,A) | 0 : 1
# What each certificate meets alone
an expired target | ca(R,R) | ca(A,R) | ee(T,A){until 250601000000Z} | none
a target of tomorrow | ca(R,R) | ca(A,R) | ee(T,A){from 250701000000Z} | none
a target with an unknown critical extension | ca(R,R) | ca(A,R) | ee(T,A){critical 1.2.3} | none
an issuer that is no authority, and one that is | ca(R,R) | ee(A,R) ; ca(A,R) | ee(T,A) | 0 : 1
an authority of version 1 | ca(R,R) | ee(A,R){version 1} | ee(T,A) | none
an authority that may not sign certificates, and one that may | ca(R,R) | ca(A,R){usage 0780} ; ca(A,R){usage 0204} | ee(T,A) | 0 : 1
an authority with an unknown critical extension, and one without | ca(R,R) | ca(A,R){critical 1.2.3} ; ca(A,R) | ee(T,A) | 0 : 1
an authority that needs a policy, and one that needs none | ca(R,R) | ca(A,R){policy} ; ca(A,R) | ee(T,A) | 0 : 1
# What certificates meet with those below them
a path length that one of two meets | ca(R,R) | ca(A,R){pathlen 0} ; ca(B,A) ; ca(C,R) ; ca(B,C) | ee(T,B) | 0 : 3 2
a path length far above | ca(R,R) | ca(A,R){pathlen 1} ; ca(B,A) ; ca(C,B) | ee(T,C) | none
a path length that just suffices | ca(R,R) | ca(A,R){pathlen 2} ; ca(B,A) ; ca(C,B) | ee(T,C) | 0 : 2 1 0
self-issued certificates do not count | ca(R,R) | ca(A,R){pathlen 0} ; ca(A,A){key N} | ee(T,A){signed N} | 0 : 1 0
a permitted subtree that one of two has | ca(R,R) | ca(A,R){permit dns a.example} ; ca(A,R){permit dns b.example} | ee(T,A){dns x.b.example} | 0 : 1
an excluded subtree that one of two has | ca(R,R) | ca(A,R){exclude dns b.example} ; ca(A,R){exclude dns a.example} | ee(T,A){dns x.b.example} | 0 : 1
a subtree of a form that is not processed, and none | ca(R,R) | ca(A,R){permit uri .example} ; ca(A,R) | ee(T,A){uri http://x.example} | 0 : 1
constraints far above, and another way | ca(R,R) | ca(A,R){exclude dns example} ; ca(B,A) ; ca(B,R) | ee(T,B){dns x.example} | 0 : 2
constraints far above, and no other way | ca(R,R) | ca(A,R){exclude dns example} ; ca(B,A) | ee(T,B){dns x.example} | none
a directory name that is permitted | ca(R,R) | ca(A,R){permit dir T} | ee(T,A) | 0 : 0
a directory name that is not permitted | ca(R,R) | ca(A,R){permit dir X} | ee(T,A) | none
an authority whose name is not permitted | ca(R,R) | ca(A,R){permit dir T} ; ca(B,A) | ee(T,B) | none
a self-issued authority whose name is not permitted | ca(R,R) | ca(A,R){permit dir T} ; ca(A,A){key N} | ee(T,A){signed N} | 0 : 1 0
# Anchors, targets and bags that overlap
the anchor is in the bag | ca(R,R) | ca(R,R) ; ca(A,R) | ee(T,A) | 0 : 1
of an anchor the name and the key alone are used | ca(R,R){until 250601000000Z}{permit dns a.example} | | ee(T,R){dns b.example} | 0 :
an authority is an anchor too | ca(R,R) ; ca(A,R) | ca(A,R) | ee(T,A) | 1 :
the target is in the bag | ca(R,R) | ee(T,A) ; ca(A,R) | ee(T,A) | 0 : 1
an authority is in the bag twice | ca(R,R) | ca(A,R) ; ca(A,R) | ee(T,A) | 0 : 0
a target that issued itself, and is an anchor | ca(R,R) | | ca(R,R) | 0 :
a target that issued itself, and is no anchor | ca(R,R) | ee(T,T) | ee(T,T) | none
a target that issued itself, without being an authority | ee(T,T) | | ee(T,T) | 0 :
a target that another issued, and is an anchor | ee(T,A) | ca(A,R) | ee(T,A) | none
the target would have to stand in its own path | ca(R,R) | ca(A,T) ; ca(T,A) ; ca(T,R){serial 06} | ca(T,A) | 0 : 0 2
";

/// The same up to the target, and then what may be asked: whether an anchor, or the certificate at a place of the bag, issued the one at a
/// place, the target being behind the bag.
pub const QUESTIONS: &str = "
the anchor issued the target | ca(R,R) | | ee(T,R) | anchor 0 of 0
a chain | ca(R,R) | ca(A,R) ; ca(B,A) | ee(T,B) | anchor 0 of 0 0 of 1 1 of 2
certificates from which no name leads to the target | ca(R,R) | ca(X,R) ; ca(A,R) ; ee(U,A) | ee(T,A) | anchor 0 of 1 1 of 3
no name leads to the target | ca(R,R) | ca(A,R) ; ca(B,A) | ee(T,C) |
a ring below no anchor | ca(R,R) | ca(A,B) ; ca(B,A) | ee(T,A) | 0 of 1 0 of 2 1 of 0
a ring below the anchor | ca(R,R) | ca(A,B) ; ca(B,A) ; ca(B,R) | ee(T,A) | anchor 0 of 2 0 of 1 0 of 3 1 of 0 2 of 0
one that issued itself | ca(R,R) | ca(R,R) | ee(T,R) | anchor 0 of 0 anchor 0 of 1 0 of 0 0 of 1
two anchors with one name, and two authorities | ca(R,R) ; ca(R,R){key N} | ca(A,R) ; ca(A,R){key N} | ee(T,A) | anchor 0 of 0 anchor 1 of 0 anchor 0 of 1 anchor 1 of 1 0 of 2 1 of 2
names are matched, not compared | ca(R,R) | ca(Ab,R) | ee(T,aB) | anchor 0 of 0 0 of 1
";
