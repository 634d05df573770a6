//! Worked examples of the definitions, each a function that does nothing.
ghost use Rattle.anb_probe.specs.Examples.{ChainHasItsCase, KerberosHasItsCase, MutualHasItsCase, MutualIsInPlace, NsskHasItsCase, SecondIsImplied};

/// The keyed hash that confirms mutual authentication, compared as a whole.
pub fn mutual_has_its_case()
    ensures case { MutualHasItsCase }
    ensures in_place { MutualIsInPlace }
{}

/// A nonce of Needham and Schroeder's protocol, inside a format that was sealed.
pub fn nssk_has_its_case()
    ensures { NsskHasItsCase }
{}

/// A name in Kerberos, which is compared with another one that came.
pub fn kerberos_has_its_case()
    ensures { KerberosHasItsCase }
{}

/// A hash chain, whose first check's case has the wrong value in the last arrival.
pub fn chain_has_its_case()
    ensures { ChainHasItsCase }
{}

/// A check that is made twice.
pub fn second_is_implied()
    ensures { SecondIsImplied }
{}
