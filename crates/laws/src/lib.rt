// General definitions and laws (specs/) that every crate shares: lists, tests, the smallest number that fails a test, counting. No code.
#![tactic(auto)]
