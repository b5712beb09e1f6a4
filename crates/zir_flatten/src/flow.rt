// What is made of a component.

use zir_flow::instruction::Instruction;
use zir_stage::layout::Layout;
use zir_tree::types::Ty;

/// The code of a component, the types of its value and of its outputs, the first cell behind all that the code uses,
/// how deep its calls go, and which memories its compositions ask for.
#[derive(Drop)]
pub struct Flow {
    pub code: Vec<Instruction>,
    pub value: Option<Ty>,
    pub output: Option<Ty>,
    pub peak: u32,
    pub depth: u32,
    pub layout: Layout,
}
