ghost use Rattle.std.specs.Prelude.{◌<◌, ◌^◌, IfErr, IfOk, length};
ghost use Rattle.run_input.specs.Acceptance.{HasModelFault, IsLayoutOf};
ghost use Rattle.run_input.specs.Refused.{IfModelFault};

use super::judging::{ModelStop, judge_tree, read_model};
use model_print::logic_values_api::Text;
use model_print::print;
use std::alloc::Global;

/// The laid-out text of a model, which is judged as one that is to be run: a refusal has what is wrong with it.
pub fn laid_out(alloc: Global, model: &[u8]) -> Result<Text, ModelStop>
    requires { length model.now < 2 ^ 32 }
    ensures page { IfOk result (IsLayoutOf model.now) }
    ensures fault { IfErr result (λ stop. IfModelFault stop (HasModelFault model.now)) }
{
    let tree = match read_model(alloc, model) {
        Ok(tree) => tree,
        Err(stop) => return Err(stop),
    };
    let page = print(alloc, &tree);
    match judge_tree(alloc, tree) {
        Ok(_) => match page {
            Ok(page) => Ok(page),
            Err(_) => Err(ModelStop::NoMemory),
        },
        Err(stop) => Err(stop),
    }
}
