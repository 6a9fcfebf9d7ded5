/// What composes two expressions.
#[derive(Clone, Copy)]
pub enum Operator {
    Par,
    Seq,
    Over,
}
