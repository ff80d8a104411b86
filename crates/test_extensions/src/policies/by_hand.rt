//! Rows by hand.

/// One question a line: its name, and where it comes from; the inputs: `user=` and the user-initial-policy-set, a letter each policy and an
/// asterisk for anyPolicy, then `E` for initial-explicit-policy, `M` for initial-policy-mapping-inhibit and `A` for
/// initial-any-policy-inhibit; the certificates, each with `s` if it is self-issued, `p=` its policies, `m=` its mappings, and the numbers
/// `e=` of requireExplicitPolicy, `i=` of inhibitPolicyMapping and `x=` of inhibitAnyPolicy; and the answer: the sets of the authorities and of
/// the user, or the certificate that is refused, and why.
pub const ROWS: &str = "
all certificates the same policy, default settings (PKITS 4.8.1) ; user=* ; p=a | p=a ; good A=a U=a
all certificates the same policy, explicit (PKITS 4.8.1) ; user=* E ; p=a | p=a ; good A=a U=a
all certificates the same policy, explicit, the user wants it (PKITS 4.8.1) ; user=a E ; p=a | p=a ; good A=a U=a
all certificates the same policy, explicit, the user wants another (PKITS 4.8.1) ; user=b E ; p=a | p=a ; bad 2 NoUserPolicy
all certificates the same policy, explicit, the user wants it or another (PKITS 4.8.1) ; user=ab E ; p=a | p=a ; good A=a U=a
all certificates no policies (PKITS 4.8.2) ; user=* ; - | - ; good A= U=
all certificates no policies, explicit (PKITS 4.8.2) ; user=* E ; - | - ; bad 1 NoValidPolicy
different policies (PKITS 4.8.3) ; user=* ; p=a | p=b | p=a ; good A= U=
different policies, explicit (PKITS 4.8.3) ; user=* E ; p=a | p=b | p=a ; bad 2 NoValidPolicy
different policies, explicit, the user wants both (PKITS 4.8.3) ; user=ab E ; p=a | p=b | p=a ; bad 2 NoValidPolicy
the last differs, explicit by the certificate above (PKITS 4.8.4) ; user=* ; p=a | p=a e=0 | p=b ; bad 3 NoValidPolicy
the middle differs and asks for explicit (PKITS 4.8.5) ; user=* ; p=a | p=b e=0 | p=a ; bad 3 NoValidPolicy
overlapping policies (PKITS 4.8.6) ; user=* ; p=abcd e=0 | p=abc | p=ab | p=a ; good A=a U=a
overlapping policies, the user wants the one left (PKITS 4.8.6) ; user=a ; p=abcd e=0 | p=abc | p=ab | p=a ; good A=a U=a
overlapping policies, the user wants one that was lost (PKITS 4.8.6) ; user=b ; p=abcd e=0 | p=abc | p=ab | p=a ; bad 4 NoUserPolicy
the last states one that was narrowed away (PKITS 4.8.7) ; user=* ; p=abc e=0 | p=ab | p=a | p=c ; bad 4 NoValidPolicy
disjoint in the middle (PKITS 4.8.8) ; user=* ; p=ab e=0 | p=a | p=b | p=c ; bad 3 NoValidPolicy
disjoint one above the last (PKITS 4.8.9) ; user=* ; p=abc e=0 | p=ab | p=b | p=a | p=a ; bad 4 NoValidPolicy
all certificates the same two policies (PKITS 4.8.10) ; user=* ; p=ab e=0 | p=ab ; good A=ab U=ab
all certificates the same two policies, the user wants the first (PKITS 4.8.10) ; user=a ; p=ab e=0 | p=ab ; good A=ab U=a
all certificates the same two policies, the user wants the second (PKITS 4.8.10) ; user=b ; p=ab e=0 | p=ab ; good A=ab U=b
all certificates anyPolicy (PKITS 4.8.11) ; user=* ; p=* e=0 | p=* ; good A=* U=*
all certificates anyPolicy, the user wants one (PKITS 4.8.11) ; user=a ; p=* e=0 | p=* ; good A=* U=a
two certificates, two policies (PKITS 4.8.12) ; user=* ; p=c e=0 | p=d ; bad 2 NoValidPolicy
the same three policies, the user wants the first (PKITS 4.8.13) ; user=a ; p=abc e=0 | p=abc ; good A=abc U=a
the same three policies, the user wants the second (PKITS 4.8.13) ; user=b ; p=abc e=0 | p=abc ; good A=abc U=b
the same three policies, the user wants the third (PKITS 4.8.13) ; user=c ; p=abc e=0 | p=abc ; good A=abc U=c
anyPolicy above one policy, the user wants it (PKITS 4.8.14) ; user=a ; p=* e=0 | p=a ; good A=a U=a
anyPolicy above one policy, the user wants another (PKITS 4.8.14) ; user=b ; p=* e=0 | p=a ; bad 2 NoUserPolicy
one certificate with a policy (PKITS 4.8.15) ; user=* ; p=a ; good A=a U=a
the last states one more than the CA (PKITS 4.8.16) ; user=* ; p=a | p=ab ; good A=a U=a
the last states anyPolicy (after PKITS 4.8.17) ; user=* ; p=a | p=* ; good A=a U=a
two policies above one and anyPolicy, the user wants the stated one (after PKITS 4.8.18) ; user=a ; p=ab e=0 | p=a* ; good A=ab U=a
two policies above one and anyPolicy, the user wants the one by anyPolicy (after PKITS 4.8.18) ; user=b ; p=ab e=0 | p=a* ; good A=ab U=b
requireExplicitPolicy 10, the last without policies (PKITS 4.9.1) ; user=* ; p=a e=10 | p=a | p=a | p=a | - ; good A= U=
requireExplicitPolicy 5, the last without policies (PKITS 4.9.2) ; user=* ; p=a e=5 | p=a | p=a | p=a | - ; good A= U=
requireExplicitPolicy 4, the last without policies (PKITS 4.9.3) ; user=* ; p=a e=4 | p=a | p=a | p=a | - ; bad 5 NoUserPolicy
requireExplicitPolicy 0, all with the policy (PKITS 4.9.4) ; user=* ; p=a e=0 | p=a | p=a | p=a | p=a ; good A=a U=a
requireExplicitPolicy 7 above 2 above 4 (PKITS 4.9.5) ; user=* ; p=a e=7 | p=a e=2 | p=a e=4 | p=a | - ; bad 5 NoValidPolicy
requireExplicitPolicy 2 above a self-issued one (PKITS 4.9.6) ; user=* ; p=a e=2 | s p=a | - ; good A= U=
requireExplicitPolicy 2 above a self-issued one and a CA (PKITS 4.9.7) ; user=* ; p=a e=2 | s p=a | p=a | - ; bad 4 NoUserPolicy
requireExplicitPolicy 2 above two self-issued ones and a CA (PKITS 4.9.8) ; user=* ; p=a e=2 | s p=a | p=a | s p=a | - ; bad 5 NoUserPolicy
mapping to the last's policy (PKITS 4.10.1) ; user=* ; p=a m=a>b e=0 | p=b ; good A=a U=a
mapping to the last's policy, the user wants the issuer's (PKITS 4.10.1) ; user=a ; p=a m=a>b e=0 | p=b ; good A=a U=a
mapping to the last's policy, the user wants the subject's (PKITS 4.10.1) ; user=b ; p=a m=a>b e=0 | p=b ; bad 2 NoUserPolicy
mapping inhibited from the start (PKITS 4.10.1) ; user=* M ; p=a m=a>b e=0 | p=b ; bad 2 NoValidPolicy
the last states the policy mapped away (PKITS 4.10.2) ; user=* ; p=a m=a>b e=0 | p=a ; bad 2 NoValidPolicy
the last states the policy mapped away, mapping inhibited (PKITS 4.10.2) ; user=* M ; p=a m=a>b e=0 | p=a ; bad 2 NoValidPolicy
one policy mapped and lost, the user wants it (after PKITS 4.10.3) ; user=a ; p=ab m=a>c e=0 | p=be m=b>e | p=e | p=e ; bad 4 NoUserPolicy
one policy mapped and lost, the user wants the other (after PKITS 4.10.3) ; user=b ; p=ab m=a>c e=0 | p=be m=b>e | p=e | p=e ; good A=b U=b
the last states a policy no mapping leads to (after PKITS 4.10.4) ; user=* ; p=ab m=a>c e=0 | p=be m=b>e | p=e | p=d ; bad 4 NoValidPolicy
one policy mapped to three, mapped on, the user wants the first (after PKITS 4.10.5) ; user=a ; p=a m=a>b,a>c,a>d e=0 | p=bcd m=b>e,c>g | p=e ; good A=a U=a
one policy mapped to three, mapped on, the user wants one never stated (after PKITS 4.10.5) ; user=f ; p=a m=a>b,a>c,a>d e=0 | p=bcd m=b>e,c>g | p=e ; bad 3 NoUserPolicy
one policy mapped to three, the one not mapped on is stated (after PKITS 4.10.6) ; user=a ; p=a m=a>b,a>c,a>d e=0 | p=bcd m=b>e,c>g | p=d ; good A=a U=a
one policy mapped to three, the user wants one never stated (after PKITS 4.10.6) ; user=f ; p=a m=a>b,a>c,a>d e=0 | p=bcd m=b>e,c>g | p=d ; bad 3 NoUserPolicy
mapping from anyPolicy (PKITS 4.10.7) ; user=* ; p=* m=*>a e=0 | p=a ; bad 1 AnyPolicyMapped
mapping to anyPolicy (PKITS 4.10.8) ; user=* ; p=a m=a>* e=0 | p=a ; bad 1 AnyPolicyMapped
anyPolicy with a mapping (PKITS 4.10.9) ; user=* ; p=* m=a>b e=0 | p=b ; good A=a U=a
anyPolicy with a mapping below one policy, the issuer's stated (PKITS 4.10.10) ; user=* ; p=a | p=* m=a>b e=0 | p=a ; bad 3 NoValidPolicy
anyPolicy with a mapping below one policy, the subject's stated (PKITS 4.10.11) ; user=* ; p=a | p=* m=a>b e=0 | p=b ; good A=a U=a
a mapped policy and anyPolicy in the last, the user wants the mapped (PKITS 4.10.12) ; user=a ; p=ab m=a>c e=0 | p=c* ; good A=ab U=a
a mapped policy and anyPolicy in the last, the user wants the other (PKITS 4.10.12) ; user=b ; p=ab m=a>c e=0 | p=c* ; good A=ab U=b
a policy and anyPolicy with a mapping, the subject's stated (PKITS 4.10.13) ; user=* ; p=a* m=a>b e=0 | p=b ; good A=a U=a
a policy and anyPolicy with a mapping, the issuer's stated (PKITS 4.10.14) ; user=* ; p=a* m=a>b e=0 | p=a ; good A=a U=a
inhibitPolicyMapping 0 above a mapping (PKITS 4.11.1) ; user=* ; p=a e=0 i=0 | p=a m=a>b | p=b ; bad 3 NoValidPolicy
inhibitPolicyMapping 1 above a mapping (PKITS 4.11.2) ; user=* ; p=ab e=0 i=1 | p=ab m=a>c,b>d | p=c ; good A=a U=a
inhibitPolicyMapping 1 above two mappings, the second counts on it (PKITS 4.11.3) ; user=* ; p=ab e=0 i=1 | p=ab m=a>c,b>d | p=cd m=c>e | p=e ; bad 4 NoValidPolicy
inhibitPolicyMapping 1 above two mappings, the second not needed (PKITS 4.11.4) ; user=* ; p=ab e=0 i=1 | p=ab m=a>c,b>d | p=cd m=c>e | p=d ; good A=b U=b
inhibitPolicyMapping 5 above 1, the mapping too low (PKITS 4.11.5) ; user=* ; p=a e=0 i=5 | p=a i=1 | p=a | p=a m=a>b | p=b ; bad 5 NoValidPolicy
inhibitPolicyMapping 1 above 5, it cannot be raised (PKITS 4.11.6) ; user=* ; p=ab e=0 i=1 | p=ab i=5 | p=ab m=a>c | p=c ; bad 4 NoValidPolicy
inhibitPolicyMapping 1 above a self-issued one and a mapping (PKITS 4.11.7) ; user=* ; p=a e=0 i=1 | s p=a | p=a m=a>b | p=b ; good A=a U=a
inhibitPolicyMapping 1, self-issued, two mappings, the second's stated (PKITS 4.11.8) ; user=* ; p=a e=0 i=1 | s p=a | p=a m=a>b | p=b m=b>c | p=c ; bad 5 NoValidPolicy
inhibitPolicyMapping 1, self-issued, two mappings, the first's stated (PKITS 4.11.9) ; user=* ; p=a e=0 i=1 | s p=a | p=a m=a>b | p=b m=b>c | p=b ; bad 5 NoValidPolicy
inhibitPolicyMapping 1, mapping in a self-issued one with the counter at 0, its subject stated (PKITS 4.11.10) ; user=* ; p=a e=0 i=1 | s p=a | p=a m=a>b | s p=b m=b>c | p=c ; bad 5 NoValidPolicy
inhibitPolicyMapping 1, mapping in a self-issued one with the counter at 0, its issuer stated (PKITS 4.11.11) ; user=* ; p=a e=0 i=1 | s p=a | p=a m=a>b | s p=b m=b>c | p=b ; bad 5 NoValidPolicy
inhibitAnyPolicy 0 above anyPolicy (PKITS 4.12.1) ; user=* ; p=a e=0 x=0 | p=* ; bad 2 NoValidPolicy
inhibitAnyPolicy 0 above anyPolicy and the policy (PKITS 4.12.2) ; user=* ; p=a e=0 x=0 | p=*a ; good A=a U=a
inhibitAnyPolicy 1 above anyPolicy in the CA (PKITS 4.12.3) ; user=* ; p=a e=0 x=1 | p=* | p=a ; good A=a U=a
inhibitAnyPolicy 1 above anyPolicy in the CA, inhibited from the start (PKITS 4.12.3) ; user=* A ; p=a e=0 x=1 | p=* | p=a ; bad 2 NoValidPolicy
inhibitAnyPolicy 1 above anyPolicy in the CA and the last (PKITS 4.12.4) ; user=* ; p=a e=0 x=1 | p=* | p=* ; bad 3 NoValidPolicy
inhibitAnyPolicy 5 above 1 (PKITS 4.12.5) ; user=* ; p=a e=0 x=5 | p=a x=1 | p=* | p=* ; bad 4 NoValidPolicy
inhibitAnyPolicy 1 above 5, it cannot be raised (PKITS 4.12.6) ; user=* ; p=a e=0 x=1 | p=a x=5 | p=* ; bad 3 NoValidPolicy
inhibitAnyPolicy 1 above a self-issued one and anyPolicy (PKITS 4.12.7) ; user=* ; p=a e=0 x=1 | s p=a | p=* | p=a ; good A=a U=a
inhibitAnyPolicy 1 above a self-issued one and two anyPolicy CAs (PKITS 4.12.8) ; user=* ; p=a e=0 x=1 | s p=a | p=* | p=* | p=a ; bad 4 NoValidPolicy
inhibitAnyPolicy 1, anyPolicy inhibited but self-issued (PKITS 4.12.9) ; user=* ; p=a e=0 x=1 | s p=a | p=* | s p=* | p=a ; good A=a U=a
inhibitAnyPolicy 1, anyPolicy inhibited and the last self-issued (PKITS 4.12.10) ; user=* ; p=a e=0 x=1 | s p=a | p=* | s p=* ; bad 4 NoValidPolicy
inhibitAnyPolicy 1, anyPolicy inhibited in the last (after PKITS 4.12.10) ; user=* ; p=a e=0 x=1 | s p=a | p=* | p=* ; bad 4 NoValidPolicy
explicit counter reaches 0 exactly at the last (5280 6.1.4 (h) (1)) ; user=* ; p=a e=1 | p=a | - ; bad 3 NoValidPolicy
explicit counter reaches 0 only by the decrement at the end (5280 6.1.5 (a)) ; user=* ; p=a e=2 | p=a | - ; bad 3 NoUserPolicy
explicit counter one too large (5280 6.1.5 (a)) ; user=* ; p=a e=3 | p=a | - ; good A= U=
explicit counter, self-issued not counted, 0 by the decrement at the end (5280 6.1.5 (a)) ; user=* ; p=a e=1 | s p=a | - ; bad 3 NoUserPolicy
the decrement at the end counts a self-issued last one (5280 6.1.5 (a)) ; user=* ; p=a e=1 | s ; bad 2 NoUserPolicy
the decrement at the end, self-issued last one, the policy is there (5280 6.1.5 (a)) ; user=* ; p=a e=1 | s p=a ; good A=a U=a
the decrement at the end, self-issued last one, the user wants another (5280 6.1.5 (a)) ; user=b ; p=a e=1 | s p=a ; bad 2 NoUserPolicy
the decrement at the end, the user wants another (5280 6.1.5 (a)) ; user=b ; p=a e=1 | p=a ; bad 2 NoUserPolicy
the decrement at the end leaves 1, the user wants another (5280 6.1.5 (a)) ; user=b ; p=a e=2 | p=a ; good A=a U=
two self-issued in a row are not counted (5280 6.1.4 (h)) ; user=* ; p=a e=2 | s p=a | s p=a | - ; good A= U=
no policy required, the user wants another (5280 6.1.5 (g)) ; user=b ; p=a | p=a ; good A=a U=
requireExplicitPolicy 0 in the last, the user wants another (5280 6.1.5 (b)) ; user=b ; p=a | p=a e=0 ; bad 2 NoUserPolicy
requireExplicitPolicy 1 in the last has no effect (5280 6.1.5 (b)) ; user=b ; p=a | p=a e=1 ; good A=a U=
requireExplicitPolicy 0 in the last without policies (5280 6.1.5 (b)) ; user=* ; p=a | e=0 ; bad 2 NoUserPolicy
requireExplicitPolicy 0 in the last, a tree that is NULL since the first (5280 6.1.5 (b)) ; user=* ; - | p=a | p=a e=0 ; bad 3 NoUserPolicy
requireExplicitPolicy 0 in the only certificate (5280 6.1.5 (b)) ; user=* ; p=a e=0 ; good A=a U=a
requireExplicitPolicy 0 in the only certificate, no policies (5280 6.1.5 (b)) ; user=* ; e=0 ; bad 1 NoUserPolicy
requireExplicitPolicy 0 in the last, self-issued (5280 6.1.5 (b)) ; user=b ; p=a | s p=a e=0 ; bad 2 NoUserPolicy
one certificate without policies, explicit (5280 6.1.3 (f)) ; user=* E ; - ; bad 1 NoValidPolicy
one certificate without policies (5280 6.1.2 (d)) ; user=* ; - ; good A= U=
all self-issued, no policies (5280 6.1.2 (d)) ; user=* ; s | s | s ; good A= U=
requireExplicitPolicy 0 in a self-issued one counts (5280 6.1.4 (i)) ; user=* ; s p=a e=0 | - ; bad 2 NoValidPolicy
requireExplicitPolicy cannot be raised (5280 6.1.4 (i) (1)) ; user=* ; p=a e=0 | p=a e=5 | - ; bad 3 NoValidPolicy
requireExplicitPolicy lowered below (5280 6.1.4 (i) (1)) ; user=* ; p=a e=3 | p=a e=0 | - ; bad 3 NoValidPolicy
requireExplicitPolicy 0 in a certificate that has no policies itself (5280 6.1.4 (i) (1)) ; user=* ; e=0 | p=a ; bad 2 NoValidPolicy
requireExplicitPolicy 1 above a certificate without policies, the end by the decrement (5280 6.1.5 (a)) ; user=* ; e=1 | - ; bad 2 NoUserPolicy
mapping counter 1 at the mapping (5280 6.1.4 (b) (1)) ; user=* E ; p=a i=1 | p=a m=a>b | p=b ; good A=a U=a
mapping counter reaches 0 exactly at the mapping (5280 6.1.4 (b) (2)) ; user=* E ; p=a i=1 | p=a | p=a m=a>b | p=b ; bad 4 NoValidPolicy
mapping counter reaches 0 exactly at the mapping, no policy required (5280 6.1.4 (b) (2)) ; user=* ; p=a i=1 | p=a | p=a m=a>b | p=b ; good A= U=
mapping counter 2, one left at the mapping (5280 6.1.4 (h) (2)) ; user=* E ; p=a i=2 | p=a | p=a m=a>b | p=b ; good A=a U=a
mapping counter, two self-issued not counted, the second maps (5280 6.1.4 (h) (2)) ; user=* E ; p=a i=1 | s p=a | s p=a m=a>b | p=b ; good A=a U=a
mapping inhibited by the certificate above, in a self-issued one (5280 6.1.4 (b) (2)) ; user=* E ; p=a i=0 | s p=a m=a>b | p=b ; bad 3 NoValidPolicy
inhibitPolicyMapping 0 in a self-issued one counts (5280 6.1.4 (i) (2)) ; user=* E ; s p=a i=0 | p=a m=a>b | p=b ; bad 3 NoValidPolicy
inhibitPolicyMapping 0 does not hit its own certificate's mapping (5280 6.1.4 (i) (2)) ; user=* E ; p=a m=a>b i=0 | p=b ; good A=a U=a
mapping inhibited, the other policy stays (5280 6.1.4 (b) (2)) ; user=* M E ; p=ab m=a>c | p=bc ; good A=b U=b
mapping inhibited, the tree is NULL, no policy required (5280 6.1.4 (b) (2) (ii)) ; user=* M ; p=a m=a>b | p=b ; good A= U=
mapping inhibited, deleted up to the root (5280 6.1.4 (b) (2) (ii)) ; user=* M E ; p=a | p=a | p=a m=a>b | p=a ; bad 4 NoValidPolicy
mapping inhibited, one branch of two deleted (5280 6.1.4 (b) (2) (ii)) ; user=* M E ; p=ab | p=ab m=a>c | p=abc ; good A=b U=b
mapping inhibited, the policy is not there (5280 6.1.4 (b) (2)) ; user=* M E ; p=a m=b>c | p=a ; good A=a U=a
mapping inhibited, a swap deletes both (5280 6.1.4 (b) (2)) ; user=* M E ; p=ab m=a>b,b>a | p=ab ; bad 2 NoValidPolicy
mapping inhibited, the subject's policy is itself stated (5280 6.1.4 (b) (2)) ; user=* M E ; p=ab m=a>b | p=b ; good A=b U=b
mapping inhibited, a policy mapped to itself is deleted (5280 6.1.4 (b) (2)) ; user=* M E ; p=a m=a>a | p=a ; bad 2 NoValidPolicy
mapping inhibited at anyPolicy, no node is made (5280 6.1.4 (b) (2)) ; user=* M E ; p=* m=a>b | p=b ; good A=b U=b
mapping inhibited at anyPolicy, the issuer's policy stated below (5280 6.1.4 (b) (2)) ; user=a M E ; p=* m=a>b | p=a ; good A=a U=a
mapping deleted, anyPolicy beside it takes the subject's (5280 6.1.4 (b) (2)) ; user=* M E ; p=a* m=a>b | p=b ; good A=b U=b
mapping deleted, anyPolicy beside it takes the subject's, the user wants the issuer's (5280 6.1.4 (b) (2)) ; user=a M E ; p=a* m=a>b | p=b ; bad 2 NoUserPolicy
mapping deleted, anyPolicy beside it takes the same policy again (5280 6.1.4 (b) (2)) ; user=* M E ; p=a* m=a>b | p=a ; good A=a U=a
mapping deleted, anyPolicy beside it and at the end (5280 6.1.5 (g) (iii)) ; user=a M E ; p=a* m=a>b | p=* ; good A=* U=a
mapping deleted below a stated policy, anyPolicy of the parent cannot help (5280 6.1.4 (b) (2)) ; user=* M E ; p=a | p=a* m=a>b | p=a ; bad 3 NoValidPolicy
mapping to two policies, the first stated (5280 6.1.4 (b) (1)) ; user=* E ; p=a m=a>b,a>c | p=b ; good A=a U=a
mapping to two policies, the second stated (5280 6.1.4 (b) (1)) ; user=* E ; p=a m=a>b,a>c | p=c ; good A=a U=a
mapping to two policies, both stated (5280 6.1.4 (b) (1)) ; user=a E ; p=a m=a>b,a>c | p=bc ; good A=a U=a
mapping to two policies, anyPolicy below makes both (5280 6.1.3 (d) (2)) ; user=* E ; p=a m=a>b,a>c | p=* ; good A=a U=a
mapping to two policies, anyPolicy below, one mapped on (5280 6.1.3 (d) (2)) ; user=* E ; p=a m=a>b,a>c | p=* m=b>d | p=d ; good A=a U=a
mapping to two policies, anyPolicy below, the other stays (5280 6.1.3 (d) (2)) ; user=* E ; p=a m=a>b,a>c | p=* m=b>d | p=c ; good A=a U=a
mapping to two policies, anyPolicy below, the mapped one is gone (5280 6.1.3 (d) (2)) ; user=* E ; p=a m=a>b,a>c | p=* m=b>d | p=b ; bad 3 NoValidPolicy
mapping to two policies, one stated and anyPolicy for the other (5280 6.1.3 (d) (2)) ; user=* E ; p=a m=a>b,a>c | p=b* | p=c ; good A=a U=a
two policies mapped to one (9618 4.1) ; user=* E ; p=ab m=a>c,b>c | p=c ; good A=ab U=ab
two policies mapped to one, the user wants the second (9618 4.1) ; user=b E ; p=ab m=a>c,b>c | p=c ; good A=ab U=b
two policies mapped to one, the user wants that one (9618 5.5) ; user=c E ; p=ab m=a>c,b>c | p=c ; bad 2 NoUserPolicy
a policy mapped to another that stays (9618 4.1) ; user=* E ; p=ab m=a>b | p=b ; good A=ab U=ab
a policy mapped to another that stays, the user wants the mapped (9618 4.1) ; user=a E ; p=ab m=a>b | p=b ; good A=ab U=a
two policies mapped to one, by anyPolicy below (9618 5.3) ; user=* E ; p=ab m=a>c,b>c | p=* | p=c ; good A=ab U=ab
two policies mapped to one and that mapped on (9618 4.1) ; user=b E ; p=ab m=a>c,b>c | p=c m=c>d | p=d ; good A=ab U=b
two policies mapped to one and that deleted (5280 6.1.4 (b) (2)) ; user=* E ; p=ab m=a>c,b>c i=0 | p=c m=c>d | p=d ; bad 3 NoValidPolicy
mapping of a policy that is not there, its subject stated (5280 6.1.4 (b) (1)) ; user=* E ; p=a m=b>c | p=c ; bad 2 NoValidPolicy
mapping of a policy that is not there, the other stated (5280 6.1.4 (b) (1)) ; user=* E ; p=a m=b>c | p=a ; good A=a U=a
mapping of a policy that is not there, with anyPolicy, its subject stated (5280 6.1.4 (b) (1)) ; user=* E ; p=a* m=b>c | p=c ; good A=b U=b
mapping of a policy that is not there, with anyPolicy, the policy itself stated below (5280 6.1.3 (d) (1) (ii)) ; user=* E ; p=a* m=b>c | p=b ; good A=b U=b
mapping of a policy that is not there, anyPolicy only above (5280 6.1.4 (b) (1)) ; user=* E ; p=* | p=a m=b>c | p=c ; bad 3 NoValidPolicy
mapping of a policy that is not there, anyPolicy stated but below a policy (5280 6.1.4 (b) (1)) ; user=* E ; p=a | p=* m=b>c | p=c ; bad 3 NoValidPolicy
mapping of a policy at anyPolicy one lower (5280 6.1.4 (b) (1)) ; user=* E ; p=a* | p=* m=c>b | p=b ; good A=c U=c
anyPolicy with a mapping to two (5280 6.1.4 (b) (1)) ; user=* E ; p=* m=a>b,a>c | p=c ; good A=a U=a
anyPolicy with a mapping of two to one (9618 4.1) ; user=* E ; p=* m=a>c,b>c | p=c ; good A=ab U=ab
anyPolicy with a mapping, anyPolicy at the end (9618 5.5) ; user=* E ; p=* m=a>b | p=* ; good A=a* U=a*
anyPolicy with a mapping, anyPolicy at the end, the user wants the issuer's (9618 5.5) ; user=a E ; p=* m=a>b | p=* ; good A=a* U=a
anyPolicy with a mapping, anyPolicy at the end, the user wants the subject's (9618 5.5) ; user=b E ; p=* m=a>b | p=* ; good A=a* U=b
chain of mappings (5280 6.1.4 (b) (1)) ; user=* E ; p=a m=a>b | p=b m=b>c | p=c m=c>d | p=d ; good A=a U=a
chain of mappings, the user wants the first (5280 6.1.5 (g) (iii)) ; user=a E ; p=a m=a>b | p=b m=b>c | p=c m=c>d | p=d ; good A=a U=a
chain of mappings, the user wants the last (5280 6.1.5 (g) (iii)) ; user=d E ; p=a m=a>b | p=b m=b>c | p=c m=c>d | p=d ; bad 4 NoUserPolicy
chain of mappings, one link old (5280 6.1.4 (b) (1)) ; user=* E ; p=a m=a>b | p=b m=b>c | p=b ; bad 3 NoValidPolicy
chain of mappings back to the first (5280 6.1.4 (b) (1)) ; user=a E ; p=a m=a>b | p=b m=b>a | p=a ; good A=a U=a
swap (5280 6.1.4 (b) (1)) ; user=b E ; p=ab m=a>b,b>a | p=a ; good A=b U=b
swap, the user wants the policy by its name at the end (5280 6.1.5 (g) (iii)) ; user=a E ; p=ab m=a>b,b>a | p=a ; bad 2 NoUserPolicy
swap twice (5280 6.1.4 (b) (1)) ; user=a E ; p=ab m=a>b,b>a | p=ab m=a>b,b>a | p=a ; good A=a U=a
swap, one stated (5280 6.1.4 (b) (1)) ; user=* E ; p=a m=a>b,b>a | p=a ; bad 2 NoValidPolicy
swap at anyPolicy (5280 6.1.4 (b) (1)) ; user=* E ; p=* m=a>b,b>a | p=a ; good A=b U=b
mapping to itself (5280 6.1.4 (b) (1)) ; user=* E ; p=a m=a>a | p=a ; good A=a U=a
mapping to itself and another (5280 6.1.4 (b) (1)) ; user=* E ; p=a m=a>a,a>b | p=b ; good A=a U=a
full product of mappings, three certificates (9618 3.2) ; user=* E ; p=ab m=a>a,a>b,b>a,b>b | p=ab m=a>a,a>b,b>a,b>b | p=ab ; good A=ab U=ab
full product of mappings, one policy at the end (9618 3.2) ; user=b E ; p=ab m=a>a,a>b,b>a,b>b | p=ab m=a>a,a>b,b>a,b>b | p=a ; good A=ab U=b
full product of mappings, six certificates (9618 3.3) ; user=a E ; p=ab m=a>a,a>b,b>a,b>b | p=ab m=a>a,a>b,b>a,b>b | p=ab m=a>a,a>b,b>a,b>b | p=ab m=a>a,a>b,b>a,b>b | p=ab m=a>a,a>b,b>a,b>b | p=ab ; good A=ab U=a
mapping in the last certificate is ignored (5280 6.1.4) ; user=* E ; p=a | p=a m=a>b ; good A=a U=a
mapping in the last certificate is ignored, mapping inhibited (5280 6.1.4) ; user=* M E ; p=a | p=a m=a>b ; good A=a U=a
mapping of anyPolicy in the last certificate is ignored (5280 6.1.4 (a)) ; user=* E ; p=a | p=a m=*>b ; good A=a U=a
mapping to anyPolicy in the last certificate is ignored (5280 6.1.4 (a)) ; user=* E ; p=a | p=a m=a>* ; good A=a U=a
mapping of anyPolicy in the only certificate is ignored (5280 6.1.4 (a)) ; user=* ; p=a m=*>a ; good A=a U=a
mapping of anyPolicy where the tree is NULL already (5280 6.1.4 (a)) ; user=* ; m=*>a | p=a ; bad 1 AnyPolicyMapped
mapping to anyPolicy where the tree went NULL in the middle (5280 6.1.4 (a)) ; user=* ; p=a | p=b m=b>* | p=b ; bad 2 AnyPolicyMapped
mapping to anyPolicy while mapping is inhibited (5280 6.1.4 (a)) ; user=* M ; p=a m=a>* | p=a ; bad 1 AnyPolicyMapped
no valid policy is told before the mapping of anyPolicy (5280 6.1.3 (f)) ; user=* E ; m=a>* | p=a ; bad 1 NoValidPolicy
the mapping of anyPolicy is told before the end (5280 6.1.4 (a)) ; user=b E ; p=a m=a>* | p=a ; bad 1 AnyPolicyMapped
mapping of anyPolicy behind a good one (5280 6.1.4 (a)) ; user=* ; p=a | p=a m=a>b,*>b | p=b ; bad 2 AnyPolicyMapped
mapping of anyPolicy to anyPolicy (5280 6.1.4 (a)) ; user=* ; p=* m=*>* | p=a ; bad 1 AnyPolicyMapped
mapping to anyPolicy in a self-issued one (5280 6.1.4 (a)) ; user=* ; s p=a m=a>* | p=a ; bad 1 AnyPolicyMapped
mapping to anyPolicy of a policy that is not there (5280 6.1.4 (a)) ; user=* ; p=a | p=a m=b>* | p=a ; bad 2 AnyPolicyMapped
anyPolicy in the middle (5280 6.1.3 (d) (2)) ; user=* E ; p=a | p=* | p=a ; good A=a U=a
anyPolicy in the middle, another stated below (5280 6.1.3 (d) (1)) ; user=* E ; p=a | p=* | p=b ; bad 3 NoValidPolicy
anyPolicy first (5280 6.1.3 (d) (1) (ii)) ; user=* E ; p=* | p=a ; good A=a U=a
anyPolicy first and second (5280 6.1.3 (d) (1) (ii)) ; user=* E ; p=* | p=* | p=ab ; good A=ab U=ab
anyPolicy last (5280 6.1.3 (d) (2)) ; user=a E ; p=ab | p=* ; good A=ab U=a
anyPolicy last, the user wants another (5280 6.1.5 (g) (iii)) ; user=c E ; p=ab | p=* ; bad 2 NoUserPolicy
anyPolicy everywhere (5280 6.1.5 (g) (ii)) ; user=* E ; p=* | p=* | p=* ; good A=* U=*
anyPolicy everywhere, the user wants two (5280 6.1.5 (g) (iii) 3) ; user=ab E ; p=* | p=* | p=* ; good A=* U=ab
anyPolicy everywhere, the user wants nothing (9618 5.5) ; user= ; p=* | p=* | p=* ; good A=* U=
anyPolicy everywhere, the user wants nothing, explicit (9618 5.5) ; user= E ; p=* | p=* | p=* ; bad 3 NoUserPolicy
anyPolicy and a policy at the end (9618 5.5) ; user=* E ; p=* | p=a* ; good A=a* U=a*
anyPolicy and a policy at the end, the user wants that (9618 5.5) ; user=a E ; p=* | p=a* ; good A=a* U=a
anyPolicy and a policy at the end, the user wants another (9618 5.5) ; user=b E ; p=* | p=a* ; good A=a* U=b
anyPolicy and a policy at the end, the user wants that and others (9618 5.5) ; user=abc E ; p=* | p=a* ; good A=a* U=abc
anyPolicy and policies at two depths (5280 6.1.5 (g) (iii) 1) ; user=* E ; p=*a | p=*b ; good A=ab* U=ab*
anyPolicy and policies at two depths, the user wants the upper and a third (5280 6.1.5 (g) (iii) 3) ; user=ac E ; p=*a | p=*b ; good A=ab* U=ac
the order of the policies does not matter (5280 6.1.3 (d)) ; user=* E ; p=*ba | p=a*b ; good A=ab* U=ab*
policies that come below anyPolicy at the third (5280 6.1.3 (d) (1) (ii)) ; user=* E ; p=* | p=* | p=ab | p=b ; good A=b U=b
policies that come below anyPolicy at three depths (5280 6.1.5 (g) (iii) 1) ; user=* E ; p=a* | p=ab* | p=abc ; good A=abc U=abc
policies that come below anyPolicy at three depths, the user wants the lowest (5280 6.1.5 (g) (iii) 1) ; user=c E ; p=a* | p=ab* | p=abc ; good A=abc U=c
anyPolicy lost in the middle, nothing can come below (5280 6.1.3 (d) (1)) ; user=* E ; p=a* | p=a | p=ab ; good A=a U=a
a mapped policy that came below anyPolicy at a lower depth (5280 6.1.5 (g) (iii) 1) ; user=a E ; p=* | p=a m=a>b | p=b ; good A=a U=a
dead branch is not in the authority set (5280 6.1.3 (d) (3)) ; user=* E ; p=ab | p=a ; good A=a U=a
dead branch of two certificates (5280 6.1.3 (d) (3)) ; user=b E ; p=ab | p=ab | p=a ; bad 3 NoUserPolicy
dead branch by a mapping (5280 6.1.3 (d) (3)) ; user=* E ; p=ab m=a>c,b>d | p=c ; good A=a U=a
dead branch by a mapping, the user wants it (5280 6.1.3 (d) (3)) ; user=b E ; p=ab m=a>c,b>d | p=c ; bad 2 NoUserPolicy
dead branch of a node made by a mapping at anyPolicy (5280 6.1.3 (d) (3)) ; user=* E ; p=* m=a>b | p=c ; good A=c U=c
dead branch of anyPolicy itself (5280 6.1.3 (d) (3)) ; user=b E ; p=a* | p=a ; bad 2 NoUserPolicy
mapped away and stated again below anyPolicy (5280 6.1.3 (d) (1) (ii)) ; user=* E ; p=a* m=a>b | p=ab ; good A=a U=a
mapped away and stated again below anyPolicy, the user wants the subject's (9618 5.5) ; user=b E ; p=a* m=a>b | p=ab ; bad 2 NoUserPolicy
mapped policy and anyPolicy at the end, the user wants the subject's (9618 5.5) ; user=b E ; p=a* m=a>b | p=ab* ; good A=a* U=b
a policy is at the end under another's name and anyPolicy is there too (9618 5.5) ; user=c E ; p=ab* m=a>c | p=bc* ; good A=ab* U=c
authority set from the top, three certificates (5280 6.1.5 (g) (iii) 1) ; user=* E ; p=* m=a>b | p=b m=b>c | p=c ; good A=a U=a
authority set from the top, the user wants the one at the end (5280 6.1.5 (g) (iii) 2) ; user=c E ; p=* m=a>b | p=b m=b>c | p=c ; bad 3 NoUserPolicy
authority set from the top, the user wants the one in the middle (5280 6.1.5 (g) (iii) 2) ; user=b E ; p=* m=a>b | p=b m=b>c | p=c ; bad 3 NoUserPolicy
anyPolicy inhibited from the start (5280 6.1.3 (d) (2)) ; user=* A E ; p=* ; bad 1 NoValidPolicy
anyPolicy inhibited from the start, no policy required (5280 6.1.3 (d) (2)) ; user=* A ; p=* | p=a ; good A= U=
anyPolicy inhibited from the start beside a policy (5280 6.1.3 (d) (2)) ; user=* A E ; p=*a | p=ab ; good A=a U=a
anyPolicy inhibited but self-issued, the first (5280 6.1.3 (d) (2) (b)) ; user=* A E ; s p=* | p=a ; good A=a U=a
anyPolicy inhibited but self-issued, in the middle (5280 6.1.3 (d) (2) (b)) ; user=* A E ; p=a | s p=* | p=a ; good A=a U=a
anyPolicy inhibited and the last self-issued (5280 6.1.3 (d) (2) (b)) ; user=* A E ; p=a | s p=* ; bad 2 NoValidPolicy
anyPolicy inhibited and the last self-issued, no policy required (5280 6.1.3 (d) (2) (b)) ; user=* A ; p=a | s p=* ; good A= U=
anyPolicy inhibited and the only one self-issued (5280 6.1.3 (d) (2) (b)) ; user=* A E ; s p=* ; bad 1 NoValidPolicy
anyPolicy not inhibited and the last self-issued (5280 6.1.3 (d) (2) (a)) ; user=* E ; p=a | s p=* ; good A=a U=a
anyPolicy counter 0 at a CA (5280 6.1.4 (j)) ; user=* E ; p=a x=0 | p=* | p=a ; bad 2 NoValidPolicy
anyPolicy counter reaches 0 exactly at the last (5280 6.1.4 (h) (3)) ; user=* E ; p=a x=1 | p=a | p=* ; bad 3 NoValidPolicy
anyPolicy counter one left at the last (5280 6.1.4 (h) (3)) ; user=* E ; p=a x=2 | p=a | p=* ; good A=a U=a
anyPolicy counter, a self-issued one not counted, one left at the last (5280 6.1.4 (h) (3)) ; user=* E ; p=a x=1 | s p=a | p=* ; good A=a U=a
inhibitAnyPolicy 0 does not hit its own certificate (5280 6.1.4 (j)) ; user=* E ; p=* x=0 | p=a ; good A=a U=a
inhibitAnyPolicy 0 in a self-issued one counts (5280 6.1.4 (j)) ; user=* E ; s p=* x=0 | p=* | p=a ; bad 2 NoValidPolicy
inhibitAnyPolicy 0, two self-issued pass (5280 6.1.3 (d) (2) (b)) ; user=* E ; p=a x=0 | s p=* | s p=* | p=a ; good A=a U=a
inhibitAnyPolicy 0 in the last has no effect (5280 6.1.4 (j)) ; user=* E ; p=a | p=* x=0 ; good A=a U=a
inhibitAnyPolicy cannot be raised (5280 6.1.4 (j)) ; user=* E ; p=a x=0 | p=a x=3 | p=* ; bad 3 NoValidPolicy
inhibitAnyPolicy 0, anyPolicy made by the first still takes policies (5280 6.1.3 (d) (1) (ii)) ; user=* E ; p=* x=0 | p=ab ; good A=ab U=ab
inhibitAnyPolicy 0, the users' policies are not added at the end (9618 5.5) ; user=b E ; p=* x=0 | p=a* ; bad 2 NoUserPolicy
inhibitAnyPolicy 1, the users' policies are added at the end (9618 5.5) ; user=b E ; p=* x=1 | p=a* ; good A=a* U=b
anyPolicy inhibited, its mapping makes nothing (5280 6.1.4 (b) (1)) ; user=* A ; p=* m=a>b | p=b ; good A= U=
anyPolicy inhibited but self-issued, its mapping makes a node (5280 6.1.4 (b) (1)) ; user=* A E ; s p=* m=a>b | p=b ; good A=a U=a
anyPolicy inhibited beside a policy, a mapping of another makes nothing (5280 6.1.4 (b) (1)) ; user=* A E ; p=a* m=b>c | p=c ; bad 2 NoValidPolicy
a certificate without the extension in the middle (5280 6.1.3 (e)) ; user=* ; p=a | - | p=a ; good A= U=
a certificate without the extension in the middle, explicit (5280 6.1.3 (e)) ; user=* E ; p=a | - | p=a ; bad 2 NoValidPolicy
a self-issued certificate without the extension (5280 6.1.3 (e)) ; user=* E ; p=a | s | p=a ; bad 2 NoValidPolicy
the first without the extension, anyPolicy below (5280 6.1.2 (a)) ; user=a ; - | p=* | p=* ; good A= U=
the first without the extension, anyPolicy below, explicit (5280 6.1.3 (f)) ; user=a E ; - | p=* | p=* ; bad 1 NoValidPolicy
a tree that goes NULL stays so (5280 6.1.2 (a)) ; user=* ; p=a | p=b | p=* ; good A= U=
a tree that a mapping made NULL stays so (5280 6.1.4 (b) (2) (ii)) ; user=* ; p=a i=0 | p=a m=a>b | p=* | p=a ; good A= U=
a tree that is NULL takes no mapping (5280 6.1.4 (b)) ; user=* ; - | m=a>b | p=b ; good A= U=
a tree that went NULL, explicit reached later (5280 6.1.3 (f)) ; user=* ; p=a e=2 | p=b | p=a | p=a ; bad 4 NoValidPolicy
the user wants nothing, a policy is there (5280 6.1.5 (g) (iii)) ; user= ; p=a | p=a ; good A=a U=
the user wants nothing, a policy is required (5280 6.1.5 (g) (iii)) ; user= E ; p=a | p=a ; bad 2 NoUserPolicy
the user wants nothing, required by the decrement at the end (5280 6.1.5 (a)) ; user= ; p=* e=1 | p=* ; bad 2 NoUserPolicy
the user wants nothing, the decrement leaves 1 (5280 6.1.5 (a)) ; user= ; p=* e=2 | p=* ; good A=* U=
the user wants nothing, required in the last (5280 6.1.5 (b)) ; user= ; p=* | p=* e=0 ; bad 2 NoUserPolicy
the user wants nothing, no policies at all (5280 6.1.5 (g) (i)) ; user= ; - | - ; good A= U=
the user wants any among others, another is there (5280 6.1.1 (c)) ; user=a* E ; p=b | p=b ; good A=b U=b
the user wants any among others, anyPolicy everywhere (5280 6.1.1 (c)) ; user=a* E ; p=* | p=* ; good A=* U=*
the user wants any among others, anyPolicy and a policy at the end (5280 6.1.1 (c)) ; user=b* E ; p=a* | p=a* ; good A=a* U=a*
the user wants any among others, no policies (5280 6.1.3 (f)) ; user=a* E ; - ; bad 1 NoValidPolicy
disjoint from the user's (5280 6.1.5 (g) (iii) 2) ; user=cd E ; p=ab | p=ab ; bad 2 NoUserPolicy
disjoint from the user's, not required (5280 6.1.5 (g) (iii) 2) ; user=cd ; p=ab | p=ab ; good A=ab U=
the user's policies half there (5280 6.1.5 (g) (iii) 2) ; user=bc E ; p=ab | p=ab ; good A=ab U=b
disjoint from the user's, required two below (5280 6.1.5 (g)) ; user=c ; p=a e=0 | p=a | p=a ; bad 3 NoUserPolicy
one certificate, anyPolicy, the user wants two (9618 5.5) ; user=ab E ; p=* ; good A=* U=ab
one certificate, a policy and anyPolicy (9618 5.5) ; user=* E ; p=a* ; good A=a* U=a*
a mapping of a policy that is there below another makes no node at anyPolicy (5280 6.1.4 (b) (1)) ; user=* E ; p=b* m=b>a | p=a* m=a>c | p=c ; good A=b U=b
a mapping of a policy that is there below another makes no node at anyPolicy, the user wants it (5280 6.1.4 (b) (1)) ; user=a E ; p=b* m=b>a | p=a* m=a>c | p=c ; bad 3 NoUserPolicy
a mapping of a policy that anyPolicy took from a mapping above (5280 6.1.4 (b) (1)) ; user=* E ; p=* m=a>b | p=* m=b>c | p=c ; good A=a U=a
a mapping of a policy that anyPolicy took from a mapping above, the user wants it (5280 6.1.4 (b) (1)) ; user=b E ; p=* m=a>b | p=* m=b>c | p=c ; bad 3 NoUserPolicy
a mapping of a policy that is new below anyPolicy and a mapping above (5280 6.1.4 (b) (1)) ; user=* E ; p=* m=a>b | p=* m=d>c | p=c ; good A=d U=d
a stated policy that a mapping leads to does not come below anyPolicy too (5280 6.1.3 (d) (1) (ii)) ; user=* E ; p=b* m=b>a | p=a ; good A=b U=b
a stated policy that a mapping leads to does not come below anyPolicy too, the user wants it (5280 6.1.3 (d) (1) (ii)) ; user=a E ; p=b* m=b>a | p=a ; bad 2 NoUserPolicy
anyPolicy takes a mapped policy and itself (5280 6.1.3 (d) (2)) ; user=* E ; p=b* m=b>a | p=* ; good A=b* U=b*
anyPolicy takes a mapped policy and itself, the user wants the subject's (9618 5.5) ; user=a E ; p=b* m=b>a | p=* ; good A=b* U=a
two policies mapped apart and then to one (9618 4.1) ; user=b E ; p=ab m=a>c,b>d | p=cd m=c>e,d>e | p=e ; good A=ab U=b
two policies mapped apart twice, one stated (5280 6.1.3 (d) (3)) ; user=a E ; p=ab m=a>c,b>d | p=cd m=c>e,d>f | p=f ; bad 3 NoUserPolicy
a node made by a mapping at anyPolicy, its child deleted, anyPolicy stays (5280 6.1.4 (b) (2)) ; user=* E ; p=* m=a>b i=0 | p=* m=b>c | p=bc ; good A=bc U=bc
a node made by a mapping at anyPolicy, its child deleted, the user wants it (5280 6.1.4 (b) (2)) ; user=a E ; p=* m=a>b i=0 | p=* m=b>c | p=bc ; bad 3 NoUserPolicy
explicit from the start cannot be raised (5280 6.1.4 (i) (1)) ; user=b E ; p=a e=5 | p=a ; bad 2 NoUserPolicy
mapping inhibited from the start cannot be allowed (5280 6.1.4 (i) (2)) ; user=* M E ; p=a i=3 | p=a m=a>b | p=b ; bad 3 NoValidPolicy
anyPolicy inhibited from the start cannot be allowed (5280 6.1.4 (j)) ; user=* A E ; p=a x=3 | p=* | p=a ; bad 2 NoValidPolicy
three counters at once, all enough (5280 6.1.4 (h)) ; user=* ; p=a e=0 i=1 x=2 | p=a m=a>b | p=* | p=b ; good A=a U=a
three counters at once, anyPolicy's is 0 at the last (5280 6.1.4 (h) (3)) ; user=* ; p=a e=0 i=1 x=2 | p=a m=a>b | p=* | p=* ; bad 4 NoValidPolicy
three counters at once, mapping's is 0 at the second mapping (5280 6.1.4 (h) (2)) ; user=* ; p=a e=0 i=1 x=2 | p=a m=a>b | p=* m=b>c | p=c ; bad 4 NoValidPolicy
three counters at once, explicit's is 0 too late to matter (5280 6.1.4 (h) (1)) ; user=* ; p=a e=4 i=0 x=0 | p=a m=a>b | p=* | p=b ; good A= U=
three counters at once, explicit's is 0 by the decrement at the end (5280 6.1.5 (a)) ; user=* ; p=a e=3 i=0 x=0 | p=a m=a>b | p=* | p=b ; bad 4 NoUserPolicy
anyPolicy below a mapping at anyPolicy makes the subject's policy (5280 6.1.3 (d) (2)) ; user=* E ; p=* m=a>b | p=* | p=b ; good A=a U=a
anyPolicy below a mapping at anyPolicy makes the subject's policy, the user wants the subject's (5280 6.1.3 (d) (2)) ; user=b E ; p=* m=a>b | p=* | p=b ; bad 3 NoUserPolicy
anyPolicy below a mapping at anyPolicy, the issuer's policy comes below anyPolicy (5280 6.1.3 (d) (1) (ii)) ; user=* E ; p=* m=a>b | p=* | p=a ; good A=a U=a
anyPolicy below a mapping of a policy that anyPolicy took (5280 6.1.3 (d) (2)) ; user=* E ; p=a | p=* m=a>b | p=* | p=b ; good A=a U=a
anyPolicy below a mapping of a policy that anyPolicy took, the issuer's policy is gone (5280 6.1.3 (d) (2)) ; user=* E ; p=a | p=* m=a>b | p=* | p=a ; bad 4 NoValidPolicy
anyPolicy below a mapping to two of a policy that anyPolicy took, one stated beside it (5280 6.1.3 (d) (2)) ; user=* E ; p=a | p=* m=a>b,a>c | p=b* | p=c ; good A=a U=a
a policy at the end under another's name does not keep the user's from being added (5280 6.1.5 (g) (iii) 3) ; user=bc E ; p=c* m=c>b | p=b* ; good A=c* U=bc
";
