// Laws of the definitions of `model` that callers use and no case needs: of reading and writing, of the recursion, of refusals and of the
// stepper. They are a crate of their own, so that a wrong definition in `model` is tried without proving them. This crate has no code.
#![tactic(auto)]
