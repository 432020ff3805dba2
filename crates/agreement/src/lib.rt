// Run and certificate agree: the theorems, each as the contract of a function that a proof can call.
//
// A case has a complete run exactly if it has a complete certificate, and each of the two converts into the other. What a
// run converts to is said by moments (specs/Moments.antt), never by a converter's steps; specs/Convert.antt has both
// conversions as definitions that compute, and specs/Agreement.antt the theorems on raw evidence. Nothing here runs: the
// converters are built on top, and their contracts cite `written` and `replayed` of specs/Evidence.antt.
//
// Whoever changes a machine meets the change first in proofs/RunSteps.antt or proofs/CertificateSteps.antt, which say once
// what an item that is taken does. proofs/Lib.antt has the proofs in reading order.
#![tactic(auto)]

ghost use Rattle.agreement.specs.Agreement.{Agreement, Encoding, Few, ToCertificate, ToRun, ByMoments};
ghost use Rattle.agreement.specs.Worked.{StoreBuffering, CarriedRead};

// Some run is complete for a case exactly if some certificate is.
pub fn runs_and_certificates_agree()
    ensures { Agreement }
{}

// What is written of a complete run is a complete certificate, with how many moves and items; what a complete certificate
// is replayed to is a complete run. The list by moments: there is one, it can be computed, and it is what a run emits.
pub fn conversions_stand()
    ensures certificate { ToCertificate }
    ensures run { ToRun }
    ensures moments { ByMoments }
{}

// At most 512 items of a run are taken and at most 4,352 of a certificate, with at most 4,096 moves; what is written as an
// item is read back, and each item that is taken was written so.
pub fn few_items_are_taken()
    ensures few { Few }
    ensures encoding { Encoding }
{}

// Store buffering there and back, and a read that is carried past: by computation.
pub fn executions_convert()
    ensures buffering { StoreBuffering }
    ensures carried { CarriedRead }
{}
