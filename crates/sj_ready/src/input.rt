//! What is asked to be run.

use sj_apps::application::Application;

/// A job text, or an application, whose job is generated.
#[derive(Drop)]
pub enum Input {
    /// The bytes of a job text.
    Text(Vec<u8>),
    /// An application in place of a text.
    Generated(Application),
}
