//! Tests of the definitions of calls of a composer: what they answer, keep, register and forget, computed.
#![tactic(auto)]
