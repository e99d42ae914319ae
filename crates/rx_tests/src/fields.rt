mod amounts;
mod codes;
mod days;
mod ids;
mod numbers;
