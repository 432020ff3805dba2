// The two kinds of the buffered memory model: runs and certificates, over one model.
ghost use Rattle.case.specs.Cases.{threads};
ghost use Rattle.machines.specs.Certificate.{OrderState, certificate_machine, Allowed};
ghost use Rattle.machines.specs.Lists.{order_state};
ghost use Rattle.machines.specs.Rows.{run_state};
ghost use Rattle.machines.specs.Run.{RunState, run_machine};
ghost use Rattle.kinds.specs.Duties.{run_sound, run-full, run_short, certificate-sound, certificate-short};

use crate::Evidence;
use case::checked::CheckedCase;
use machines::faults::{CertificateFault, RunFault};
use machines::lists::Certificate;
use machines::rows::Run;
use records::Item;

impl Evidence for Run {
    type Fault = RunFault;

    ghost State = { RunState };

    ghost state = { λ k m. run_state (threads k) m };

    ghost allows = { λ k. Allowed (threads k) };

    ghost machine = { λ k. run_machine (threads k) };

    ghost sound = { run_sound };

    ghost full = { run-full };

    ghost short = { run_short };

    fn begin(&mut self, case: &CheckedCase) {
        Run::begin(self, case);
    }

    fn put(&mut self, case: &CheckedCase, item: Item) -> Result<(), RunFault> {
        Run::put(self, case, item)
    }

    fn finished(&self, case: &CheckedCase) -> bool {
        Run::finished(self, case)
    }
}

impl Evidence for Certificate {
    type Fault = CertificateFault;

    ghost State = { OrderState };

    ghost state = { λ k m. order_state (threads k) m };

    ghost allows = { λ k. Allowed (threads k) };

    ghost machine = { λ k. certificate_machine (threads k) };

    ghost sound = { certificate-sound };

    ghost full = { λ k a. a };

    ghost short = { certificate-short };

    fn begin(&mut self, case: &CheckedCase) {
        Certificate::begin(self, case);
    }

    fn put(&mut self, case: &CheckedCase, item: Item) -> Result<(), CertificateFault> {
        Certificate::put(self, case, item)
    }

    fn finished(&self, case: &CheckedCase) -> bool {
        Certificate::finished(self, case)
    }
}
