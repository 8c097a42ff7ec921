// The tests by what they are about; `runs` has the runs themselves, `programs` the texts that several tests use.

mod certificate_texts;
mod certificates;
mod faults;
mod large_certificates;
mod marks;
mod outside;
mod programs;
mod runs;
mod samples;
mod sizes;
mod solving;
mod stops;
mod texts;
