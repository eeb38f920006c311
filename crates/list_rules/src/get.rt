//! What a get asks for.

ghost use Rattle.std.specs.Prelude.{◌≡◌, IfOk, IfErr, Ok, Err, codes};
ghost use Rattle.list_rules.specs.Options.{given, parameter_number, of_get, IsNeverExact};

use crate::AskNo;
use crate::options::{get_meaning, number_of};
use http_read::Params;
use kube_meta::{Key, Resource};
use select_all::Meaning;

/// One object that is asked for.
#[derive(Debug, Drop)]
pub struct GetAsk {
    pub resource: Resource,
    pub key: Key,
    /// At which revision; never at one alone.
    pub meaning: Meaning,
    pub ghost never_exact: { IsNeverExact meaning },
}

impl GetAsk {
    /// What the parameters of a get ask for: `resourceVersion` alone counts. The only refusal is `BadRevision`.
    pub fn from_params(resource: Resource, key: Key, params: &Params) -> Result<GetAsk, AskNo>
        ensures ok { IfOk result (λ ask. (of_get (parameter_number (given (codes "resourceVersion") params.now)) ≡ Ok ask.meaning) × (ask.resource ≡ resource) × (ask.key ≡ key)) }
        ensures err { IfErr result (λ fault. of_get (parameter_number (given (codes "resourceVersion") params.now)) ≡ Err fault) }
    {
        match get_meaning(number_of(params, "resourceVersion")) {
            Ok(meaning) => Ok(GetAsk {
                resource,
                key,
                meaning,
            }),
            Err(fault) => Err(fault),
        }
    }
}
