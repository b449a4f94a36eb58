//! What the lines in front of a job's statements set.

ghost use Rattle.std.specs.Prelude.{◌≡◌, IfErr, OnOk};
ghost use Rattle.sj_job.specs.Reason.{Objects};
ghost use Rattle.sj_job.specs.Settings.{set_by};
ghost use Rattle.sj_meaning.specs.Settings.{is_worker_count, is_node_size, SettingsAreInRange};

use crate::form::{Piece, SettingForm};
use crate::reason::{LimitKind, Objection, Reason};
use crate::word::count_of;
use sj_base::mode::Policy;
use sj_meaning::settings::{GREATEST_NODE, LEAST_NODE, MOST_NODES, MOST_WORKERS, Settings};

/// Does what a settings line says, or says why not. Linear in the line.
pub fn set(settings: &mut Settings, form: &SettingForm<'_>) -> Result<(), Objection>
    requires { SettingsAreInRange settings.old }
    ensures set { OnOk result (set_by settings.old form.now ≡ Ok settings.new) }
    ensures within { OnOk result (SettingsAreInRange settings.new) }
    ensures why { IfErr result (λ e. Objects e (set_by settings.old form.now)) }
{
    match form {
        SettingForm::Workers(count) => set_workers(settings, count),
        SettingForm::Node(bytes) => add_node(settings, bytes),
        SettingForm::Policy(policy) => set_policy(settings, *policy),
    }
}

/// `workers N`, once.
fn set_workers(settings: &mut Settings, word: &Piece<'_>) -> Result<(), Objection>
    requires { SettingsAreInRange settings.old }
    ensures set { OnOk result
        (set_by settings.old (SettingForm.Workers word.now) ≡ Ok settings.new) }
    ensures within { OnOk result (SettingsAreInRange settings.new) }
    ensures why { IfErr result (λ e. Objects e
        (set_by settings.old (SettingForm.Workers word.now))) }
{
    if settings.workers.is_some() {
        return Err(Objection::Bad(Reason::Word));
    }
    let Some(count) = count_of(word.bytes()) else {
        return Err(Objection::Bad(Reason::Number));
    };
    if !is_worker_count(count) {
        return Err(Objection::Bad(Reason::Limit(LimitKind::Workers)));
    }
    settings.workers = Some(count as u8);
    Ok(())
}

/// `node BYTES`.
fn add_node(settings: &mut Settings, word: &Piece<'_>) -> Result<(), Objection>
    requires { SettingsAreInRange settings.old }
    ensures set { OnOk result (set_by settings.old (SettingForm.Node word.now) ≡ Ok settings.new) }
    ensures within { OnOk result (SettingsAreInRange settings.new) }
    ensures why { IfErr result (λ e. Objects e (set_by settings.old (SettingForm.Node word.now))) }
{
    let Some(bytes) = count_of(word.bytes()) else {
        return Err(Objection::Bad(Reason::Number));
    };
    if settings.nodes.len() >= MOST_NODES {
        return Err(Objection::Bad(Reason::Limit(LimitKind::Nodes)));
    }
    if !is_node_size(bytes) {
        return Err(Objection::Bad(Reason::Limit(LimitKind::NodeBytes)));
    }
    settings.nodes.push(bytes)?;
    Ok(())
}

/// `policy P`, once.
fn set_policy(settings: &mut Settings, policy: Policy) -> Result<(), Objection>
    requires { SettingsAreInRange settings.old }
    ensures set { OnOk result (set_by settings.old (SettingForm.Policy policy) ≡ Ok settings.new) }
    ensures within { OnOk result (SettingsAreInRange settings.new) }
    ensures why { IfErr result (λ e. Objects e (set_by settings.old (SettingForm.Policy policy))) }
{
    if settings.policy.is_some() {
        return Err(Objection::Bad(Reason::Word));
    }
    settings.policy = Some(policy);
    Ok(())
}

fn is_worker_count(count: u64) -> bool
    ensures { result ≡ is_worker_count count }
{
    1 <= count && count <= MOST_WORKERS
}

fn is_node_size(bytes: u64) -> bool
    ensures { result ≡ is_node_size bytes }
{
    LEAST_NODE <= bytes && bytes <= GREATEST_NODE
}
