//! The canonical text of a task, by way of its JSON value.

ghost use Rattle.std.specs.Prelude.{
  ◌≡◌,
  ◌++◌,
  ◌<◌,
  ◌≤◌,
  map,
  flat_map,
  length,
  remove,
  slice_index_or,
  vec_items,
  IfOk,
  OnOk,
};
ghost use Rattle.serde_json.specs.Data.{Data};
ghost use Rattle.serde_json.specs.View.{view};
ghost use Rattle.wf_model.specs.Task.{IsTaskSimplex};
ghost use Rattle.wf_simplex.specs.Faces.{IsComplex};
ghost use Rattle.wf_task.specs.Borders.{borders_of, place_before};
ghost use Rattle.wf_task.specs.Canonical.{
  HasFewFacets,
  facets,
  number_data,
  list_data,
  vertex_data,
  simplex_data,
  tuple_data,
  rule_data,
  keyed,
  version_of,
};
ghost use Rattle.wf_task_parse.specs.Shape.{rule_of};
ghost use Rattle.wf_task.specs.TaskSeen.{rules_seen};

use crate::row::Row;
use serde_json::{Map, Value, json, put};
use std::alloc::{AllocError, Global};
use wf_simplex::{Complex, Simplex};

// ---- facets

/// Returns the facets of `complex`: its simplices that are not proper faces of another one, in
/// ascending order. It takes O(n log n) steps, and memory for four times the simplices.
pub(crate) fn facets(alloc: Global, complex: &Complex) -> Result<Vec<Simplex>, AllocError>
    requires { HasFewFacets complex.now }
    ensures facets { IfOk result (λ found. found.items ≡ facets complex.now) }
    ensures complex { IsComplex complex.now }
{
    let simplices = complex.simplices();
    let inner = Complex::from_facets(alloc, &boundary_faces(alloc, simplices)?)?;
    let mut found = Vec::new(alloc);
    for simplex in simplices {
        if !inner.contains(simplex) {
            found.push(*simplex)?;
        }
    }
    Ok(found)
}

/// Returns all faces of `simplices` that have exactly one vertex less than their simplex.
fn boundary_faces(alloc: Global, simplices: &[Simplex]) -> Result<Vec<Simplex>, AllocError>
    ensures { IfOk result (λ borders. borders.items ≡ flat_map borders_of simplices.now) }
{
    let mut borders = Vec::new(alloc);
    for simplex in simplices {
        add_borders(&mut borders, simplex)?;
    }
    Ok(borders)
}

/// Appends to `borders` the faces of `simplex` that have exactly one vertex less. A single
/// vertex has none.
fn add_borders(borders: &mut Vec<Simplex>, simplex: &Simplex) -> Result<(), AllocError>
    ensures { OnOk result (borders.new.items ≡ borders.old.items ++ borders_of simplex.now) }
{
    let size = simplex.colours();
    if size == 1 {
        return Ok(());
    }
    for place in 0..size {
        borders.push(without(simplex, place))?;
    }
    Ok(())
}

/// Returns `simplex` without its vertex at place `left_out`. It must have at least two vertices.
fn without(simplex: &Simplex, left_out: u8) -> Simplex
    requires place { left_out < length simplex.now }
    requires others { 2 ≤ length simplex.now }
    ensures { result ≡ remove simplex.now left_out }
{
    let mut pairs = [(0u8, 0u8); 4];
    let size = simplex.colours() - 1;
    for place in 0..size {
        pairs[place as usize] = vertex(simplex, index_before_removal(left_out, place));
    }
    match Simplex::read(&pairs[..size as usize]) {
        Ok(simplex) => simplex,
        Err(_) => unreachable!(),
    }
}

/// Returns the index that the item at index `place` had before the item at index `left_out` was
/// removed.
fn index_before_removal(left_out: u8, place: u8) -> u8
    requires { place < 4 }
    ensures { result ≡ place_before left_out place }
{
    if place < left_out { place } else { place + 1 }
}

/// Returns the vertex at `place` of `simplex`: a process and its value.
fn vertex(simplex: &Simplex, place: u8) -> (u8, u8)
    requires place { place < length simplex.now }
    requires simplex { IsTaskSimplex simplex.now }
    ensures { result ≡ slice_index_or simplex.now place (0, 0) }
{
    let process = simplex.colour(place);
    let Some(value) = simplex.value(process) else {
        unreachable!()
    };
    (process, value)
}

// ---- JSON values

/// A value that has a form in JSON.
pub(crate) trait Shown {
    // the JSON value that stands for it
    ghost shown: { Self → Data };

    /// Returns the JSON value that stands for `self`.
    fn to_json(&self, alloc: Global) -> Result<Value, AllocError>
        ensures { IfOk result (λ v. view v ≡ shown self.now) };
}

impl Shown for u8 {
    ghost shown = { number_data };

    fn to_json(&self, _alloc: Global) -> Result<Value, AllocError> {
        Ok(Value::from(*self))
    }
}

impl Shown for (u8, u8) {
    ghost shown = { vertex_data };

    fn to_json(&self, alloc: Global) -> Result<Value, AllocError> {
        let (process, value) = *self;
        json!(in alloc; [process, value])
    }
}

impl Shown for Simplex {
    ghost shown = { simplex_data };

    fn to_json(&self, alloc: Global) -> Result<Value, AllocError> {
        let mut vertices = Vec::new(alloc);
        for place in 0..self.colours() {
            vertices.push(vertex(self, place).to_json(alloc)?)?;
        }
        Ok(Value::Array(vertices))
    }
}

impl Shown for Row {
    ghost shown = { tuple_data };

    fn to_json(&self, alloc: Global) -> Result<Value, AllocError> {
        list(alloc, self.as_slice())
    }
}

/// Returns the JSON array of `values`.
pub(crate) fn list<T: Shown>(alloc: Global, values: &[T]) -> Result<Value, AllocError>
    ensures { IfOk result (λ v. view v ≡ list_data T.shown values.now) }
{
    let mut items = Vec::new(alloc);
    for value in values {
        items.push(value.to_json(alloc)?)?;
    }
    Ok(Value::Array(items))
}

/// Returns the JSON object of an entry of `delta`: the input simplex under `in`, and its tuples
/// under `out`.
fn entry(alloc: Global, simplex: &Simplex, rows: &[Row]) -> Result<Value, AllocError>
    ensures { IfOk result (λ v. view v ≡ rule_data (rule_of simplex.now rows.now)) }
{
    let mut members = Map::new(alloc);
    put(&mut members, alloc, "out", list(alloc, rows)?)?;
    put(&mut members, alloc, "in", simplex.to_json(alloc)?)?;
    Ok(Value::Object(members))
}

/// Returns the JSON array of all entries of `delta`. `tuples` has a list for each simplex of
/// `inputs`.
pub(crate) fn entries(
    alloc: Global,
    inputs: &[Simplex],
    tuples: &[Vec<Row>],
) -> Result<Value, AllocError>
    requires { length tuples.now ≡ length inputs.now }
    ensures { IfOk result (λ v. view v ≡
        list_data rule_data (rules_seen inputs.now (map vec_items tuples.now))) }
{
    let mut entries = Vec::new(alloc);
    for (place, simplex) in inputs.iter().enumerate() {
        entries.push(entry(alloc, simplex, &tuples[place])?)?;
    }
    Ok(Value::Array(entries))
}

/// Returns the version that the text of a task has: 2 if the task names the least size of a first
/// block, and 1 otherwise.
fn version_shown(least_block: Option<u8>) -> Value
    ensures { view result ≡ number_data (version_of least_block) }
{
    match least_block {
        None => Value::from(1u64),
        Some(_) => Value::from(2u64),
    }
}

/// The parts of a task's canonical text, key by key.
#[derive(Drop)]
pub(crate) struct TaskFields {
    /// The least number of participants in a first block, if the text has the key `first_block`.
    pub least_block: Option<u8>,
    /// The number of processes.
    pub processes: u8,
    /// Whether processes know one another by rank only, and not by name.
    pub symmetric: bool,
    /// The list of the facets of the input complex.
    pub inputs: Value,
    /// The list of the facets of the output complex.
    pub outputs: Value,
    /// The list of the entries of `delta`, one for each input simplex.
    pub delta: Value,
}

/// Returns the JSON object with these `fields`, its keys in alphabetical order.
pub(crate) fn task_value(alloc: Global, fields: TaskFields) -> Result<Value, AllocError>
    ensures { let f = fields in IfOk result (λ v. view v ≡ keyed f.least_block f.processes
        f.symmetric (view f.inputs) (view f.outputs) (view f.delta)) }
{
    let TaskFields {
        least_block,
        processes,
        symmetric,
        inputs,
        outputs,
        delta,
    } = fields;
    // from the last key to the first, so that each is inserted in front of the keys already there
    let mut members = Map::new(alloc);
    put(&mut members, alloc, "version", version_shown(least_block))?;
    put(&mut members, alloc, "symmetric", Value::Bool(symmetric))?;
    put(&mut members, alloc, "processes", Value::from(processes))?;
    put(&mut members, alloc, "outputs", outputs)?;
    put(&mut members, alloc, "inputs", inputs)?;
    if let Some(first_block) = least_block {
        put(&mut members, alloc, "first_block", Value::from(first_block))?;
    }
    put(&mut members, alloc, "delta", delta)?;
    Ok(Value::Object(members))
}
