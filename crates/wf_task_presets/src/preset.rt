//! Set agreement and renaming, the two families of named tasks.
//!
//! The limits are checked by counting: no tuple is stored before the task is known to be within all
//! limits.

ghost use Rattle.std.specs.Prelude.{◌≡◌, ◌==◌, ◌≤◌, ◌++◌, true, All, IfOk, OnOk, map, length, zip, count_by, vec_items};
ghost use Rattle.wf_model.specs.Lists.{below};
ghost use Rattle.wf_model.specs.Presets.{input_facets};
ghost use Rattle.wf_model.specs.Simplex.{processes_of, complex_of};
ghost use Rattle.wf_model.specs.Task.{IsTask};
ghost use Rattle.wf_task.specs.Canonical.{HasFewFacets};
ghost use Rattle.wf_task_parse.specs.RawTask.{Gives};
ghost use Rattle.wf_task_presets.specs.Family.{IsFamily, AreFew, all_on, tuples_for, images_of, task_for};
ghost use Rattle.wf_task_presets.specs.Preset.{inputs_seen, input_complex_of, has_processes, has_values, has_input_values, inputs_judged, set_agreement_of, renaming_of};

use crate::family::{Family, list_at, list_count, numbers_below};
use std::alloc::{AllocError, Global};
use wf_simplex::{Complex, Simplex};
use wf_task::{MAX_INPUTS, MAX_OUTPUTS, MAX_TUPLES, MAX_VERTICES, Row, Task, TaskFault, TaskLimit};

/// The inputs that the processes of a set agreement task may have.
#[derive(Clone, Copy, Debug, PartialEq, Eq)]
pub enum Inputs {
    /// Each process has its own number as its input.
    Own,
    /// Each process has any of the values below this bound, from 1 to 64, as its input.
    All(u32),
}

impl Inputs {
    /// Returns `true` if a task may have this number of input values.
    fn has_values(self) -> bool
        ensures { result ≡ has_input_values self }
    {
        match self {
            Inputs::Own => true,
            Inputs::All(values) => has_values(values),
        }
    }

    /// Returns the number of vertices of the input complex for `processes` processes.
    fn vertex_count(self, processes: u8) -> usize
        requires some { 1 ≤ processes }
        requires few { processes ≤ 4 }
        requires values { has_input_values self ≡ true }
        ensures { result ≡ count_by (λ s. length s == 1) (input_complex_of processes self) }
    {
        match self {
            Inputs::Own => usize::from(processes),
            Inputs::All(values) => usize::from(processes) * values as usize,
        }
    }

    /// Returns the number of input simplices in which all `processes` processes take part.
    fn facet_count(self, processes: u8) -> usize
        requires some { 1 ≤ processes }
        requires few { processes ≤ 4 }
        requires values { has_input_values self ≡ true }
        ensures { result ≡ length (input_facets processes (inputs_seen self)) }
    {
        match self {
            Inputs::Own => 1,
            Inputs::All(values) => list_count(values as usize, processes),
        }
    }

    /// Returns the input simplices in which all `processes` processes take part.
    fn facets(self, alloc: Global, processes: u8) -> Result<Vec<Simplex>, AllocError>
        requires some { 1 ≤ processes }
        requires few { processes ≤ 4 }
        requires values { has_input_values self ≡ true }
        ensures { IfOk result (λ facets. facets.items ≡ input_facets processes (inputs_seen self)) }
    {
        let whole = all_processes(processes);
        match self {
            Inputs::Own => {
                let own = Row::new(&[0, 1, 2, 3][..processes as usize]);
                let mut facets = Vec::new(alloc);
                facets.push(with_values(&whole, &own))?;
                Ok(facets)
            }
            Inputs::All(values) => {
                let values = numbers_below(alloc, values as u8)?;
                all_assignments(alloc, &whole, &values)
            }
        }
    }
}

/// Returns `true` if a task may have this number of processes: 1 to 4.
fn has_processes(processes: u32) -> bool
    ensures { result ≡ has_processes processes }
{
    (1..=4).contains(&processes)
}

/// Returns `true` if a task may have this number of values: 1 to 64.
fn has_values(values: u32) -> bool
    ensures { result ≡ has_values values }
{
    (1..=64).contains(&values)
}

/// Creates a set agreement task (Chaudhuri 1993): each process decides the input of some
/// participant, and at most `k` different values are decided.
///
/// # Errors
///
/// - `Processes` if `processes` is not 1 to 4.
/// - `Value` if `k` is 0, or there are not 1 to 64 input values.
/// - `TooMany` with the limit that the task's canonical text would exceed.
/// - `OutOfMemory` if memory runs out.
pub fn set_agreement(
    alloc: Global,
    processes: u32,
    k: u32,
    inputs: Inputs,
) -> Result<Task, TaskFault>
    ensures { Gives (λ t. t) result (set_agreement_of processes k inputs) }
{
    if !has_processes(processes) {
        return Err(TaskFault::Processes);
    }
    if k == 0 || !inputs.has_values() {
        return Err(TaskFault::Value);
    }
    let processes = processes as u8;
    let complex = input_complex(alloc, processes, inputs)?;
    let family = Family::Agreement(k);
    if family.has_more_tuples(alloc, complex.simplices(), MAX_TUPLES)? {
        return Err(TaskFault::TooMany(TaskLimit::Tuples));
    }
    Ok(task_for(alloc, processes, false, family, complex)?)
}

/// Creates a renaming task: the processes, which all have the same input, decide different names
/// below `names`.
///
/// # Errors
///
/// - `Processes` if `processes` is not 1 to 4.
/// - `Value` if `names` is not 1 to 64.
/// - `TooMany` with the limit that the task's canonical text would exceed.
/// - `OutOfMemory` if memory runs out.
pub fn renaming(alloc: Global, processes: u32, names: u32) -> Result<Task, TaskFault>
    ensures { Gives (λ t. t) result (renaming_of processes names) }
{
    if !has_processes(processes) {
        return Err(TaskFault::Processes);
    }
    if !has_values(names) {
        return Err(TaskFault::Value);
    }
    let processes = processes as u8;
    let whole = all_processes(processes);
    let family = Family::Naming(names as u8);
    if family.count(alloc, &whole, MAX_OUTPUTS)?.is_none() {
        return Err(TaskFault::TooMany(TaskLimit::Outputs));
    }
    let complex = Complex::from_facets(alloc, &[whole])?;
    if family.has_more_tuples(alloc, complex.simplices(), MAX_TUPLES)? {
        return Err(TaskFault::TooMany(TaskLimit::Tuples));
    }
    Ok(task_for(alloc, processes, true, family, complex)?)
}

/// Creates the input complex of a set agreement task. A complex with too many facets is never
/// built.
///
/// # Errors
///
/// Returns `TooMany` if it has more vertices or simplices than an input complex may have.
fn input_complex(alloc: Global, processes: u8, inputs: Inputs) -> Result<Complex, TaskFault>
    requires some { 1 ≤ processes }
    requires few { processes ≤ 4 }
    requires values { has_input_values inputs ≡ true }
    ensures { Gives (λ c. c) result (inputs_judged (input_complex_of processes inputs)) }
{
    if inputs.vertex_count(processes) > MAX_VERTICES {
        return Err(TaskFault::TooMany(TaskLimit::Vertices));
    }
    if inputs.facet_count(processes) > MAX_INPUTS {
        return Err(TaskFault::TooMany(TaskLimit::Simplices));
    }
    let complex = Complex::from_facets(alloc, &inputs.facets(alloc, processes)?)?;
    if complex.simplices().len() > MAX_INPUTS {
        return Err(TaskFault::TooMany(TaskLimit::Simplices));
    }
    Ok(complex)
}

/// Creates the task of `family` with the input complex `inputs`.
fn task_for(
    alloc: Global,
    processes: u8,
    symmetric: bool,
    family: Family,
    inputs: Complex,
) -> Result<Task, AllocError>
    requires family { IsFamily family }
    requires task { IsTask (task_for processes symmetric family inputs) }
    requires few { HasFewFacets (complex_of (images_of family inputs)) }
    ensures { IfOk result (λ t. t ≡ task_for processes symmetric family inputs) }
{
    let (tuples, images) = tuples_and_images(alloc, family, inputs.simplices())?;
    let outputs = Complex::from_facets(alloc, &images)?;
    Ok(Task::of_parts(processes, symmetric, inputs, outputs, tuples))
}

/// Returns the tuples that `family` allows at each of the input simplices `inputs`, and all of them
/// as output simplices.
fn tuples_and_images(
    alloc: Global,
    family: Family,
    inputs: &[Simplex],
) -> Result<(Vec<Vec<Row>>, Vec<Simplex>), AllocError>
    requires { IsFamily family }
    ensures tuples { IfOk result
        (λ made. map vec_items made.0.items ≡ map (tuples_for family) inputs.now) }
    ensures images { IfOk result (λ made. made.1.items ≡ images_of family inputs.now) }
{
    let mut tuples = Vec::new(alloc);
    let mut images = Vec::new(alloc);
    for simplex in inputs {
        let rows = family.tuples(alloc, simplex)?;
        add_images(&mut images, simplex, &rows)?;
        tuples.push(rows)?;
    }
    Ok((tuples, images))
}

/// Appends to `images` the simplices that have the processes of `simplex` and the values of one of
/// `rows`.
fn add_images(images: &mut Vec<Simplex>, simplex: &Simplex, rows: &[Row]) -> Result<(), AllocError>
    requires { All (λ row. length row ≡ length simplex.now) rows.now }
    ensures { OnOk result (images.new.items
        ≡ images.old.items ++ map (zip (processes_of simplex.now)) rows.now) }
{
    for row in rows {
        images.push(with_values(simplex, row))?;
    }
    Ok(())
}

/// Returns all simplices that have the processes of `whole` and any of `values` at each.
fn all_assignments(
    alloc: Global,
    whole: &Simplex,
    values: &[u8],
) -> Result<Vec<Simplex>, AllocError>
    requires { AreFew values.now }
    ensures { IfOk result (λ facets. facets.items ≡ all_on whole.now values.now) }
{
    let mut facets = Vec::new(alloc);
    let size = whole.colours();
    for number in 0..list_count(values.len(), size) {
        facets.push(with_values(whole, &list_at(values, size, number)))?;
    }
    Ok(facets)
}

/// Returns the simplex of the processes 0 to `processes - 1`, each with the value 0.
fn all_processes(processes: u8) -> Simplex
    requires some { 1 ≤ processes }
    requires few { processes ≤ 4 }
    ensures { result ≡ map (λ p. (p, 0)) (below processes) }
{
    let all = [(0, 0), (1, 0), (2, 0), (3, 0)];
    match Simplex::read(&all[..processes as usize]) {
        Ok(simplex) => simplex,
        Err(_) => unreachable!(),
    }
}

/// Returns the simplex that has the processes of `simplex` and these `values`, in the same order.
fn with_values(simplex: &Simplex, values: &Row) -> Simplex
    requires { length values.now ≡ length simplex.now }
    ensures { result ≡ zip (processes_of simplex.now) values.now }
{
    let mut pairs = [(0u8, 0u8); 4];
    for place in 0..simplex.colours() {
        pairs[place as usize] = (simplex.colour(place), values.value(place));
    }
    match Simplex::read(&pairs[..values.size() as usize]) {
        Ok(simplex) => simplex,
        Err(_) => unreachable!(),
    }
}
