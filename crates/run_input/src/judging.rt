ghost use Rattle.std.specs.Prelude.{◌≡◌, ◌<◌, ◌^◌, ℕ, List, None, IfErr, IfOk, OnOk, length};
ghost use Rattle.model_tree.specs.Tree as tree;
ghost use Rattle.model_tree.specs.WholeTree.{source_of};
ghost use Rattle.model_tree.specs.Stops.{IfSyntax};
ghost use Rattle.run_input.specs.Acceptance.{Accepts, AcceptsModel, CanRun, HasModelFault, HasReplayFault, HasScriptFault, IsDesignOfSource, IsDesignOfText, IsRead, NamesScript, ReadsExpanded, ReadsReplay};
ghost use Rattle.run_input.specs.Refused.{IfModelFault, IfScriptFault, HasTextFault};

use super::loading::Texts;
use elaborate::laws_design_api::{designs_are_few, semaphores_start_low};
use elaborate::model_check_api::check;
use elaborate::sound_design;
use expanded_text::{expand_text, one_reading};
use flat_design::{Choices, Design};
use model_parser::parse;
use model_tree::{CheckStop, ParseStop, Tree};
use result_texts::{ModelFault, ScriptFault};
use script_text::{Script, choice_list, commands, name_all};
use std::alloc::Global;

/// Why texts were not accepted.
#[derive(Drop)]
pub enum JudgeStop {
    /// The model has no tree, or breaks a rule.
    Model(ModelFault),
    /// The script has no command list, or a command cannot be carried out.
    Script(ScriptFault),
    /// The replay text is no list of serials; the line at which it does not read, counted from 1.
    Replay(u32),
    /// Memory was refused.
    NoMemory,
}

/// Why a model was not accepted.
#[derive(Drop)]
pub enum ModelStop {
    /// It is at fault.
    Fault(ModelFault),
    /// Memory was refused.
    NoMemory,
}

/// Why a script was not accepted.
#[derive(Drop)]
enum ScriptStop {
    /// It is at fault.
    Fault(ScriptFault),
    /// Memory was refused.
    NoMemory,
}

/// What a run is made of.
#[derive(Drop)]
pub struct Judged {
    /// The design of the model.
    pub design: Design,
    /// The commands of the script over it.
    pub script: Script,
    /// The serials of the replay text, where there is one.
    pub replay: Option<Choices>,
}

/// The tree of what a model becomes that does not read as it stands. Where it has no clocked threads it is refused on this line.
fn read_expanded(alloc: Global, text: &[u8], line: u32) -> Result<Tree, ParseStop>
    requires { length text.now < 2 ^ 32 }
    ensures reads { IfOk result (λ t. ReadsExpanded text.now (source_of t)) }
    ensures only { (m : tree.Source) → ReadsExpanded text.now m → IfErr result (λ e. e ≡ ParseStop.NoMemory) }
{
    one_reading();
    match expand_text(alloc, text) {
        Ok(Some(out)) => parse(alloc, out.as_slice()),
        Ok(None) => Err(ParseStop::Syntax { line }),
        Err(stop) => Err(stop),
    }
}

/// The tree that a text reads as, as it stands, or as what it becomes. Syntax exactly where it reads as none.
fn read_text(alloc: Global, text: &[u8]) -> Result<Tree, ParseStop>
    requires { length text.now < 2 ^ 32 }
    ensures reads { IfOk result (λ t. IsRead text.now (source_of t)) }
    ensures only { (m : tree.Source) → IsRead text.now m → IfErr result (λ e. e ≡ ParseStop.NoMemory) }
{
    match parse(alloc, text) {
        Ok(tree) => Ok(tree),
        Err(ParseStop::Syntax { line }) => read_expanded(alloc, text, line),
        Err(ParseStop::NoMemory) => Err(ParseStop::NoMemory),
    }
}

/// The tree of a model of any language: each mode that reads a model reads it here.
pub(crate) fn read_model(alloc: Global, text: &[u8]) -> Result<Tree, ModelStop>
    requires { length text.now < 2 ^ 32 }
    ensures reads { IfOk result (λ t. IsRead text.now (source_of t)) }
    ensures fault { IfErr result (λ stop. IfModelFault stop (HasModelFault text.now)) }
{
    match read_text(alloc, text) {
        Ok(tree) => Ok(tree),
        Err(ParseStop::Syntax { line }) => Err(ModelStop::Fault(ModelFault::Syntax(line))),
        Err(ParseStop::NoMemory) => Err(ModelStop::NoMemory),
    }
}

/// The design of a tree of any language: it is judged by its resolution and the rules on its modules, and then by those on its
/// instances and bindings. What is said of it is so of each text that reads as this tree.
pub(crate) fn judge_tree(alloc: Global, tree: Tree) -> Result<Design, ModelStop>
    ensures accepted { OnOk result ((text : List ℕ) → IsRead text (source_of tree) → AcceptsModel text (source_of tree)) }
    ensures design { IfOk result (IsDesignOfSource (source_of tree)) }
    ensures runs { IfOk result CanRun }
    ensures fault { IfErr result (λ stop. (text : List ℕ) → IsRead text (source_of tree) → IfModelFault stop (HasModelFault text)) }
{
    designs_are_few();
    semaphores_start_low();
    let checked = match check(alloc, tree) {
        Ok(checked) => checked,
        Err(CheckStop::Refused(fault)) => return Err(ModelStop::Fault(ModelFault::Rule(fault))),
        Err(CheckStop::NoMemory) => return Err(ModelStop::NoMemory),
    };
    match sound_design(alloc, checked) {
        Ok(design) => Ok(design),
        Err(CheckStop::Refused(fault)) => Err(ModelStop::Fault(ModelFault::Rule(fault))),
        Err(CheckStop::NoMemory) => Err(ModelStop::NoMemory),
    }
}

/// The design of a model, which is judged by all rules. A refusal has what is wrong with it.
pub fn judge_model(alloc: Global, text: &[u8]) -> Result<Design, ModelStop>
    requires { length text.now < 2 ^ 32 }
    ensures accepted { IfOk result (IsDesignOfText text.now) }
    ensures runs { IfOk result CanRun }
    ensures fault { IfErr result (λ stop. IfModelFault stop (HasModelFault text.now)) }
{
    match read_model(alloc, text) {
        Ok(tree) => judge_tree(alloc, tree),
        Err(stop) => Err(stop),
    }
}

/// The commands of a script over a design.
fn judge_script(alloc: Global, text: &[u8], design: &Design) -> Result<Script, ScriptStop>
    ensures accepted { IfOk result (λ script. NamesScript design.now text.now script) }
    ensures fault { IfErr result (λ stop. IfScriptFault stop (HasScriptFault design.now text.now)) }
{
    let list = match commands(alloc, text) {
        Ok(list) => list,
        Err(ParseStop::Syntax { line }) => return Err(ScriptStop::Fault(ScriptFault::Syntax(line))),
        Err(ParseStop::NoMemory) => return Err(ScriptStop::NoMemory),
    };
    match name_all(alloc, list, design) {
        Ok(script) => Ok(script),
        Err(CheckStop::Refused(fault)) => Err(ScriptStop::Fault(ScriptFault::Command(fault))),
        Err(CheckStop::NoMemory) => Err(ScriptStop::NoMemory),
    }
}

/// The serials of the replay text, where there is one.
fn judge_replay(alloc: Global, texts: &Texts) -> Result<Option<Choices>, ParseStop>
    ensures reads { IfOk result (ReadsReplay texts.now.replay) }
    ensures fault { IfErr result (λ stop. IfSyntax stop (HasReplayFault texts.now.replay)) }
{
    match &texts.replay {
        None => Ok(None),
        Some(text) => match choice_list(alloc, text.as_slice()) {
            Ok(list) => Ok(Some(list)),
            Err(stop) => Err(stop),
        },
    }
}

/// Judges a model, and then a script over its design, where no replay text stands beside them. A refusal has what is wrong with
/// the text.
pub fn judge_text(alloc: Global, model: &[u8], script: &[u8]) -> Result<Judged, JudgeStop>
    requires { length model.now < 2 ^ 32 }
    ensures accepted { IfOk result (λ judged. (m : tree.Source) × Accepts model.now script.now m judged.design judged.script) }
    ensures replay { IfOk result (λ judged. judged.replay ≡ None) }
    ensures runs { IfOk result (λ judged. CanRun judged.design) }
    ensures fault { IfErr result (HasTextFault model.now script.now None) }
{
    let design = match judge_model(alloc, model) {
        Ok(design) => design,
        Err(ModelStop::Fault(fault)) => return Err(JudgeStop::Model(fault)),
        Err(ModelStop::NoMemory) => return Err(JudgeStop::NoMemory),
    };
    match judge_script(alloc, script, &design) {
        Ok(script) => Ok(Judged {
            design,
            script,
            replay: None,
        }),
        Err(ScriptStop::Fault(fault)) => Err(JudgeStop::Script(fault)),
        Err(ScriptStop::NoMemory) => Err(JudgeStop::NoMemory),
    }
}

/// Judges the model, then the script over its design, and then the replay text where there is one. A refusal has what is wrong
/// with the text.
pub fn judge(alloc: Global, texts: &Texts) -> Result<Judged, JudgeStop>
    requires { length texts.now.model < 2 ^ 32 }
    ensures accepted { IfOk result (λ judged. (m : tree.Source) × Accepts texts.now.model texts.now.script m judged.design judged.script) }
    ensures replay { IfOk result (λ judged. ReadsReplay texts.now.replay judged.replay) }
    ensures runs { IfOk result (λ judged. CanRun judged.design) }
    ensures fault { IfErr result (HasTextFault texts.now.model texts.now.script texts.now.replay) }
{
    let judged = match judge_text(alloc, texts.model.as_slice(), texts.script.as_slice()) {
        Ok(judged) => judged,
        Err(stop) => return Err(stop),
    };
    match judge_replay(alloc, texts) {
        Ok(replay) => Ok(Judged { replay, ..judged }),
        Err(ParseStop::Syntax { line }) => Err(JudgeStop::Replay(line)),
        Err(ParseStop::NoMemory) => Err(JudgeStop::NoMemory),
    }
}
