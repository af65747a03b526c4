// Plans as texts.
use std::alloc::Global;
use std::fmt::Write;
use storm_values::{Memory, Value};
use topology_plan::{
    Body, Component, Fold, Function, Grouping, Kind, Op, Origin, Plan, StateSpec, Sub, Test,
};

/// A line of the plan's sizes, a line of what the run needs, and then a line for the spout's
/// subscriptions, each component with its first task and its subscriptions, and the
/// components of the tasks.
pub fn described(alloc: Global, plan: &Plan) -> Result<String, Memory> {
    let mut text = String::new(alloc);
    let (components, tasks) = (plan.components(), plan.tasks());
    let (weight, depth) = (plan.weight(), plan.depth());
    writeln!(
        text,
        "components {components} tasks {tasks} weight {weight} depth {depth}"
    )?;
    let (ackers, pending) = (plan.ackers(), plan.pending());
    let (buckets, attempts) = (plan.buckets(), plan.attempts());
    writeln!(
        text,
        "ackers {ackers} pending {pending} buckets {buckets} attempts {attempts}"
    )?;
    let (fields, batch) = (plan.spout_fields(), plan.batch());
    write!(
        text,
        "{} spout fields {fields} batch {batch} partitions {}",
        kind(plan.spout_kind()),
        plan.partitions()
    )?;
    write_subs(&mut text, plan.subs(Origin::Spout))?;
    for c in 0..components {
        write_component(&mut text, plan.component(c))?;
        write_subs(&mut text, plan.subs(Origin::Component(c)))?;
    }
    write!(text, "tasks of")?;
    for task in 0..tasks {
        write!(text, " {}", plan.component_of(task))?;
    }
    writeln!(text)?;
    Ok(text)
}

fn write_component(text: &mut String, component: &Component) -> Result<(), Memory> {
    let (first, tasks) = (component.first_task, component.tasks);
    write!(
        text,
        "{} from {first} tasks {tasks} fields",
        component.name.as_str()
    )?;
    for name in component.fields.as_slice() {
        write!(text, " {}", name.as_str())?;
    }
    match &component.body {
        Body::Bolt(op) => write_op(text, op),
        Body::State(spec) => write_state(text, spec),
    }
}

fn write_op(text: &mut String, op: &Op) -> Result<(), Memory> {
    match &op.function {
        Function::Split => write!(text, " split {}", op.field()),
        Function::Project => write!(text, " project {:?}", op.reads.as_slice()),
        Function::Filter { test, value } => {
            write!(text, " filter {} {} ", op.field(), test_word(*test))?;
            write_value(text, value)
        }
        Function::Set { value } => {
            write!(text, " set {} ", op.field())?;
            write_value(text, value)
        }
        Function::Len => write!(text, " len {}", op.field()),
        Function::Route => write!(text, " route {}", op.field()),
        Function::Flaky { below } => write!(text, " flaky {below}"),
        Function::Mute { below } => write!(text, " mute {below}"),
        Function::Custom => write!(text, " custom"),
    }
}

fn write_value(text: &mut String, value: &Value) -> Result<(), Memory> {
    match value {
        Value::Int(number) => write!(text, "{number}"),
        Value::Text(constant) => write!(text, "'{}'", constant.as_str()),
    }
}

fn write_state(text: &mut String, spec: &StateSpec) -> Result<(), Memory> {
    let fold = match spec.fold {
        Fold::Count => "count",
        Fold::Sum => "sum",
        Fold::Last => "last",
        Fold::Max => "max",
        Fold::Custom => "custom",
    };
    write!(
        text,
        " {} key {:?} {fold}",
        kind(spec.kind),
        spec.key.as_slice()
    )?;
    if let Some(amount) = spec.amount {
        write!(text, " {amount}")?;
    }
    Ok(())
}

fn write_subs(text: &mut String, subs: &[Sub]) -> Result<(), Memory> {
    for sub in subs {
        write!(text, "; to {} ", sub.to)?;
        match &sub.grouping {
            Grouping::Shuffle => write!(text, "shuffle")?,
            Grouping::Fields(key) => write!(text, "fields {:?}", key.as_slice())?,
            Grouping::All => write!(text, "all")?,
            Grouping::Global => write!(text, "global")?,
            Grouping::Direct(field) => write!(text, "direct {field}")?,
        }
    }
    writeln!(text)
}

fn kind(kind: Kind) -> &'static str {
    match kind {
        Kind::Transactional => "transactional",
        Kind::Opaque => "opaque",
    }
}

fn test_word(test: Test) -> &'static str {
    match test {
        Test::Eq => "eq",
        Test::Ne => "ne",
        Test::Lt => "lt",
    }
}
