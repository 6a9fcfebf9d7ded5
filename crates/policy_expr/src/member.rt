use cv_io::Text;

/// A member that an expression may name.
#[derive(Debug, Drop)]
pub struct MemberName {
    /// The name of its controller.
    pub name: Text,
    /// Its number in the policy.
    pub index: u32,
    /// Whether it has no grant to rewrite, to pass or to output to a link port.
    pub plain: bool,
}
