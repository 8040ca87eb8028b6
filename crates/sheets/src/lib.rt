// Shift sheets, what is taken for granted of them, and the promise over them: see specs/.
#![tactic(auto)]
