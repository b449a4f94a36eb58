//! The lines of the settings.

ghost use Rattle.std.specs.Prelude.{◌≡◌, ◌++◌, flat_map, OnOk};
ghost use Rattle.sj_job.specs.Form.{policy_word};
ghost use Rattle.sj_meaning.specs.Settings.{nodes_of};
ghost use Rattle.sj_text.specs.Text.{node_line, settings_lines};

use sj_base::memory::OutOfMemory;
use sj_base::mode::Policy;
use sj_meaning::settings::{DEFAULT_NODE, Settings};
use sj_show::words::write_numbered;

fn policy_word(policy: Policy) -> &'static [u8]
    ensures { result.now ≡ policy_word policy }
{
    match policy {
        Policy::Eager => b"eager",
        Policy::Prio => b"prio",
        Policy::Ws => b"ws",
    }
}

/// Appends `node BYTES`.
fn write_node(text: &mut Vec<u8>, bytes: u64) -> Result<(), OutOfMemory>
    ensures { OnOk result (text.new.items ≡ text.old.items ++ node_line bytes) }
{
    write_numbered(text, b"node ", bytes)?;
    text.push(b'\n')?;
    Ok(())
}

/// Appends a line for each of these sizes. Linear in them.
fn write_node_lines(text: &mut Vec<u8>, nodes: &[u64]) -> Result<(), OutOfMemory>
    ensures { OnOk result (text.new.items ≡ text.old.items ++ flat_map node_line nodes.now) }
{
    for bytes in nodes {
        write_node(text, *bytes)?;
    }
    Ok(())
}

/// Appends a line for each node, also for that of a job without `node` lines. Linear in them.
fn write_nodes(text: &mut Vec<u8>, settings: &Settings) -> Result<(), OutOfMemory>
    ensures { OnOk result (text.new.items
        ≡ text.old.items ++ flat_map node_line (nodes_of settings.now)) }
{
    match settings.nodes.items().split_first() {
        Some(_) => write_node_lines(text, settings.nodes.items()),
        None => write_node(text, DEFAULT_NODE),
    }
}

/// Appends the lines of the settings, also of those that no line of the job sets. Linear in the nodes.
pub fn write_settings(text: &mut Vec<u8>, settings: &Settings) -> Result<(), OutOfMemory>
    ensures { OnOk result (text.new.items ≡ text.old.items ++ settings_lines settings.now) }
{
    write_numbered(text, b"workers ", settings.worker_count() as u64)?;
    text.push(b'\n')?;
    write_nodes(text, settings)?;
    text.extend_from_slice(b"policy ")?;
    text.extend_from_slice(policy_word(settings.chosen_policy()))?;
    text.push(b'\n')?;
    Ok(())
}
