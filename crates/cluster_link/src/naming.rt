//! How it is told that a mirror's log isn't taken to a list.

ghost use Rattle.up_api.specs.Sections.{Learns};
ghost use Rattle.mirror_log.specs.MirrorLogs.{Rests};
ghost use Rattle.cluster_link.specs.Relisting.{NamesRefusal, TellsOther};

use crate::ClusterNo;
use crate::finding::Finding;
use crate::refusals::anew_refusal;
use kube_meta::Row;
use mirror_log::{MirrorLog, RebaseNo};
use std::sync::Wait;
use up_api::LogFacts;

// Looks for an old row that isn't the one that stands, and notes it.
fn other<N: LogFacts, R: Wait + Copy>(
    log: &mut MirrorLog<N, R>,
    rows: &[Row],
    to: u64,
    at: u64,
    finding: &mut Option<Finding>,
) -> ClusterNo
    ensures learns { Learns log.old.told log.new.told }
    ensures rests { Rests log.old log.new }
    ensures told { TellsOther log.old rows.now to at result log.new }
{
    match log.different_row(rows) {
        Ok(Some(key)) => {
            *finding = Some(Finding::Row(key));
            ClusterNo::OtherValue
        }
        Ok(None) => ClusterNo::OtherLog,
        Err(why) => anew_refusal(to, at, why),
    }
}

/// Why a mirror's log, which ends at `to`, isn't taken to a list at `at` with these rows.
pub(crate) fn named<N: LogFacts, R: Wait + Copy>(
    log: &mut MirrorLog<N, R>,
    rows: &[Row],
    to: u64,
    at: u64,
    why: RebaseNo,
    finding: &mut Option<Finding>,
) -> ClusterNo
    ensures learns { Learns log.old.told log.new.told }
    ensures rests { Rests log.old log.new }
    ensures named { NamesRefusal log.old rows.now to at why result log.new }
{
    match why {
        RebaseNo::OtherLog => other(log, rows, to, at, finding),
        why => anew_refusal(to, at, why),
    }
}
