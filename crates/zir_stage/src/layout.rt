// The memories that compositions ask for.

/// None, or one for a left side and those inside both sides.
#[derive(Drop)]
pub enum Layout {
    Flat,
    Split(Box<Layout>, Box<Layout>),
}
