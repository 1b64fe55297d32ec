//! Listening sockets whose accepting doesn't wait.
use audit_serve_door::PromptListening;
use audit_serve_sockets::SystemSockets;

/// The calls that make sockets, and the one after which accepting at such a socket doesn't wait ([`PromptListening`]).
/// Every system of sockets has these calls.
pub trait PromptSockets: SystemSockets + PromptListening {}

impl<F: SystemSockets> PromptSockets for F {}
